// The limits of a build, at both edges. A refused build says 14, and hands back what it was handed.
use crate::stands::{Built, lawful, log_over, store_over};
use filing::single::file;
use quota::layer::Quota;
use spool::entry::Part;
use spool::interface::Spool;
use std::alloc::{AllocError, Global};
use std::process::Abort;
use std::test::Fail;

fn gives_memory_back<S: Drop, R: Drop>(built: Built<S, R>, octets: usize, rows: usize) -> bool {
    built.is_err_and(|rejected| {
        rejected.refusal.number() == 14
            && rejected.given.0.len() == octets
            && rejected.given.1.len() == rows
    })
}

fn gives_spool_back<S: Spool + Drop>(below: S, entries: usize, octets: usize) -> bool {
    let count = below.count(Part::Held);
    let is_open = below.lot_is_open();
    Quota::build(below, entries, octets).is_err_and(|rejected| {
        rejected.refusal.number() == 14
            && rejected.given.count(Part::Held) == count
            && rejected.given.lot_is_open() == is_open
    })
}

// Holds builds over so many octets and rows to whether they stand.
fn each_stands_or_not<S: Drop, R: Drop, F: Fn(usize, usize) -> Result<Built<S, R>, AllocError>>(
    rt: &impl Abort,
    cases: &[(usize, usize, bool)],
    over: F,
) -> Result<(), AllocError>
    requires { F.IsAlwaysCallable over }
{
    for (octets, rows, stands) in cases {
        let built = over(*octets, *rows)?;
        assert!(rt;
            gives_memory_back(built, *octets, *rows) != *stands,
            "{} {}",
            *octets,
            *rows
        );
    }
    Ok(())
}

#[test]
fn of_a_log(rt: HostRuntime) -> Result<(), Fail> {
    let cases = [
        (512, 1, true),
        (65536, 256, true),
        (511, 1, false),
        (65537, 1, false),
        (512, 0, false),
        (512, 257, false),
    ];
    each_stands_or_not(
        &rt,
        &cases,
        |octets, rows| log_over(rt.alloc(), octets, rows),
    )?;
    Ok(())
}

#[test]
fn of_a_slot_store(rt: HostRuntime) -> Result<(), Fail> {
    // one slot and 32, of 512 octets and 65,536; then too few and too many slots, and slots too short, too long and uneven
    let cases = [
        (512, 1, true),
        (65536, 1, true),
        (16384, 32, true),
        (2097152, 32, true),
        (512, 0, false),
        (0, 0, false),
        (16896, 33, false),
        (511, 1, false),
        (65537, 1, false),
        (1025, 2, false),
    ];
    each_stands_or_not(
        &rt,
        &cases,
        |octets, rows| store_over(rt.alloc(), octets, rows),
    )?;
    Ok(())
}

#[test]
fn of_a_quota(rt: HostRuntime) -> Result<(), Fail> {
    let cases = [
        (1, 512, true),
        (1000, 65536, true),
        (0, 512, false),
        (1001, 512, false),
        (1, 511, false),
        (1, 65537, false),
    ];
    for (entries, octets, stands) in cases {
        let below = lawful(log_over(rt.alloc(), 512, 1)?)?;
        assert!(rt; gives_spool_back(below, entries, octets) != stands);
    }
    Ok(())
}

#[test]
fn of_a_quota_over_a_spool_in_use(rt: HostRuntime) -> Result<(), Fail> {
    let mut used = lawful(log_over(rt.alloc(), 512, 1)?)?;
    let _ = file(&mut used, 3, b"text");
    assert!(rt; gives_spool_back(used, 1, 512));
    let mut open = lawful(log_over(rt.alloc(), 512, 1)?)?;
    let _ = open.open_lot();
    assert!(rt; gives_spool_back(open, 1, 512));
    Ok(())
}
