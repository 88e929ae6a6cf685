// What every spool does, held to a log, a slot store and a quota layer in turn.
use crate::stands::{Fault, fault, holds, lawful, log_over, no_room, number, payload, store_over};
use filing::collect::collect;
use filing::single::file;
use quota::layer::Quota;
use spool::entry::Part;
use spool::interface::Spool;
use std::process::Abort;
use std::test::Fail;

// Over an empty spool: a lot is opened once, and keeps what is held from removal.
fn in_a_lot<S: Spool>(spool: &mut S) -> [Result<(), u8>; 8] {
    [
        number(spool.stage(3, b"text")),
        number(file(spool, 3, &payload(1))),
        number(spool.open_lot()),
        number(spool.open_lot()),
        number(spool.remove(0)),
        number(collect(spool, 3, &mut payload(0))),
        number(spool.stage(4, b"text")),
        number(spool.stage(64, b"text")),
    ]
}

// Over a lot with one entry: it leaves nothing where it is withdrawn.
fn withdrawn<S: Spool>(spool: &mut S) -> [usize; 4] {
    [
        spool.count(Part::Staged),
        spool.withdraw(),
        spool.count(Part::Staged),
        spool.count(Part::Held),
    ]
}

// Over one entry, for mailbox 3: no such mailbox, nothing held, a buffer of 127 octets, no such entry.
fn refusing<S: Spool>(spool: &mut S, short: &mut [u8]) -> [Result<(), u8>; 8] {
    [
        number(file(spool, 64, b"text")),
        number(spool.room(64, 1)),
        number(collect(spool, 64, short)),
        number(collect(spool, 4, short)),
        number(collect(spool, 3, short)),
        number(spool.copy(0, short)),
        number(spool.entry(Part::Held, 1)),
        number(spool.remove(1)),
    ]
}

// Over an empty spool with room for four payloads of mailbox 3: one is taken out of the middle, and then there is room again.
fn filled<S: Spool>(spool: &mut S) -> [Result<(), Fault>; 7] {
    [
        fault(file(spool, 3, &payload(1))),
        fault(file(spool, 3, &payload(2))),
        fault(file(spool, 3, &payload(3))),
        fault(file(spool, 3, &payload(4))),
        fault(file(spool, 3, &payload(5))),
        fault(spool.remove(1)),
        fault(file(spool, 3, &payload(5))),
    ]
}

fn holds_in_order<S: Spool>(spool: &S, seeds: [u8; 4]) -> bool {
    let in_order = seeds
        .iter()
        .enumerate()
        .all(|(at, seed)| holds(spool, at, 3, *seed));
    in_order && spool.count(Part::Held) == seeds.len()
}

fn lot_and_refusals<S: Spool>(rt: &impl Abort, spool: &mut S) {
    let expected = [
        Err(11),
        Ok(()),
        Ok(()),
        Err(10),
        Err(10),
        Err(10),
        Ok(()),
        Err(7),
    ];
    assert_eq!(rt; in_a_lot(spool), expected);
    assert!(rt; withdrawn(spool) == [1, 1, 0, 1]);
    let mut short = [9; 127];
    let expected = [
        Err(7),
        Err(7),
        Err(7),
        Err(8),
        Err(9),
        Err(9),
        Err(13),
        Err(13),
    ];
    assert_eq!(rt; refusing(spool, &mut short), expected);
    assert!(rt; short == [9; 127] && holds(spool, 0, 3, 1) && !spool.lot_is_open());
}

fn each_in_turn<S: Spool>(rt: &impl Abort, spool: &mut S, cause: u8) {
    lot_and_refusals(rt, spool);
    let mut whole = [9; 128];
    let _ = collect(spool, 3, &mut whole);
    assert!(rt; whole == payload(1) && spool.count(Part::Held) == 0);
    let expected = [
        Ok(()),
        Ok(()),
        Ok(()),
        Ok(()),
        no_room(0, cause),
        Ok(()),
        Ok(()),
    ];
    assert_eq!(rt; filled(spool), expected);
    assert!(rt; holds_in_order(spool, [1, 3, 4, 5]));
}

#[test]
fn of_a_log(rt: HostRuntime) -> Result<(), Fail> {
    let mut log = lawful(log_over(rt.alloc(), 512, 8)?)?;
    each_in_turn(&rt, &mut log, 3);
    Ok(())
}

#[test]
fn of_a_slot_store(rt: HostRuntime) -> Result<(), Fail> {
    let mut slots = lawful(store_over(rt.alloc(), 2048, 4)?)?;
    each_in_turn(&rt, &mut slots, 2);
    Ok(())
}

#[test]
fn of_a_quota(rt: HostRuntime) -> Result<(), Fail> {
    let log = lawful(log_over(rt.alloc(), 1024, 8)?)?;
    let mut quota = lawful(Quota::build(log, 4, 65536))?;
    each_in_turn(&rt, &mut quota, 5);
    Ok(())
}
