// Why there is no room: the cause, and how many layers down it lies.
use crate::stands::{Fault, fault, lawful, log_over, no_room, store_over};
use filing::single::file;
use quota::layer::Quota;
use spool::interface::Spool;
use std::test::Fail;

// Over one free slot of 512 octets: room for one entry of mailbox 3 in a lot, and for no second.
fn one_slot<S: Spool>(spool: &mut S) -> [Result<(), Fault>; 4] {
    let _ = spool.open_lot();
    [
        fault(spool.room(3, 513)),
        fault(spool.room(3, 512)),
        fault(spool.stage(3, b"text")),
        fault(spool.stage(3, b"text")),
    ]
}

#[test]
fn in_one_free_slot_for_a_mailbox_twice(rt: HostRuntime) -> Result<(), Fail> {
    let mut slots = lawful(store_over(rt.alloc(), 512, 1)?)?;
    let answers = one_slot(&mut slots);
    assert_eq!(rt; answers, [no_room(0, 1), Ok(()), Ok(()), no_room(0, 2)]);
    Ok(())
}

// The same, seen from one layer above and from two.
fn one_layer_up<S: Spool + Drop>(below: S) -> Result<[Result<(), Fault>; 4], Fail> {
    let mut layer = lawful(Quota::build(below, 2, 65536))?;
    Ok(one_slot(&mut layer))
}

fn two_layers_up<S: Spool + Drop>(below: S) -> Result<[Result<(), Fault>; 4], Fail> {
    one_layer_up(lawful(Quota::build(below, 2, 65536))?)
}

#[test]
fn three_layers_down(rt: HostRuntime) -> Result<(), Fail> {
    let slots = lawful(store_over(rt.alloc(), 512, 1)?)?;
    let answers = two_layers_up(lawful(Quota::build(slots, 2, 65536))?)?;
    assert_eq!(rt; answers, [no_room(3, 1), Ok(()), Ok(()), no_room(3, 2)]);
    Ok(())
}

// Over room for 512 octets in two entries of mailbox 3: too many octets, and then too many entries.
fn two_entries<S: Spool>(spool: &mut S) -> [Result<(), Fault>; 5] {
    [
        fault(file(spool, 3, b"text")),
        fault(spool.room(3, 509)),
        fault(spool.room(3, 508)),
        fault(file(spool, 3, b"")),
        fault(file(spool, 3, b"")),
    ]
}

#[test]
fn in_a_log(rt: HostRuntime) -> Result<(), Fail> {
    let mut log = lawful(log_over(rt.alloc(), 512, 2)?)?;
    let answers = two_entries(&mut log);
    assert_eq!(rt;
        answers,
        [Ok(()), no_room(0, 3), Ok(()), Ok(()), no_room(0, 4)]
    );
    Ok(())
}

#[test]
fn in_a_quota(rt: HostRuntime) -> Result<(), Fail> {
    let log = lawful(log_over(rt.alloc(), 65536, 256)?)?;
    let mut quota = lawful(Quota::build(log, 2, 512))?;
    let answers = two_entries(&mut quota);
    assert_eq!(rt;
        answers,
        [Ok(()), no_room(0, 6), Ok(()), Ok(()), no_room(0, 5)]
    );
    Ok(())
}
