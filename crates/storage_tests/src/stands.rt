// What the tests share: stores over so much memory, and what calls answer.
use packed::log::PackedLog;
use packed::row::LogRow;
use refusals::refusal::{Refusal, Rejected};
use slots::row::SlotRow;
use slots::store::SlotStore;
use spool::entry::{Part, Summary};
use spool::interface::Spool;
use std::alloc::{AllocError, Global};
use std::array;

// What the build of a store over octets and rows gives: the store, or the memory back.
pub(crate) type Built<S, R> = Result<S, Rejected<(Vec<u8>, Vec<R>)>>;

// What a build over so many octets and rows gives.
fn built<S, R: Copy, F: FnOnce(Vec<u8>, Vec<R>) -> Built<S, R>>(
    heap: Global,
    octets: usize,
    row: R,
    rows: usize,
    build: F,
) -> Result<Built<S, R>, AllocError>
    requires { F.IsAlwaysCallable build }
{
    let octets = vec![in heap; 7; octets]?;
    let rows = vec![in heap; row; rows]?;
    Ok(build(octets, rows))
}

// What the build of a log over so many octets and rows gives.
pub(crate) fn log_over(
    heap: Global,
    octets: usize,
    rows: usize,
) -> Result<Built<PackedLog, LogRow>, AllocError> {
    let row = LogRow {
        offset: 0,
        length: 0,
        mailbox: 0,
    };
    built(heap, octets, row, rows, packed::log::edit::build)
}

// What the build of a slot store over so many octets and rows gives.
pub(crate) fn store_over(
    heap: Global,
    octets: usize,
    rows: usize,
) -> Result<Built<SlotStore, SlotRow>, AllocError> {
    let row = SlotRow {
        slot: 0,
        length: 0,
        mailbox: 0,
    };
    built(heap, octets, row, rows, slots::store::filing::build)
}

// What a build gives that should not be refused.
pub(crate) fn lawful<S, T: Drop>(built: Result<S, Rejected<T>>) -> Result<S, Refusal> {
    built.map_err(|rejected| rejected.refusal)
}

// The number of an answer's refusal, if it is one.
pub(crate) fn number<T: Drop>(answer: Result<T, Refusal>) -> Result<(), u8> {
    answer.map(|_| ()).map_err(|refusal| refusal.number())
}

// What a refusal tells: its number, and the layer and the cause where it is for want of room.
pub(crate) type Fault = (u8, Option<(u8, u8)>);

// What an answer's refusal tells, if it is one.
pub(crate) fn fault(answer: Result<(), Refusal>) -> Result<(), Fault> {
    answer.map_err(|refusal| match refusal {
        Refusal::NoRoom(fault) => (refusal.number(), Some((fault.layer, u8::from(fault.cause)))),
        _ => (refusal.number(), None),
    })
}

// A refusal for want of room, by the layer and the cause.
pub(crate) const fn no_room(layer: u8, cause: u8) -> Result<(), Fault> {
    Err((12, Some((layer, cause))))
}

// A payload of 128 octets, each another one than its neighbours.
pub(crate) fn payload(seed: u8) -> [u8; 128] {
    array::from_fn(|i| seed.wrapping_add(i as u8))
}

// Whether an entry stands at a place with its payload, and a copy leaves the buffer's tail unaltered.
pub(crate) fn holds<S: Spool>(spool: &S, at: usize, mailbox: usize, seed: u8) -> bool {
    let mut buffer = [250; 130];
    spool.entry(Part::Held, at)
        == Ok(Summary {
            mailbox,
            length: 128,
        })
        && spool.copy(at, &mut buffer) == Ok(128)
        && buffer.starts_with(&payload(seed))
        && buffer.ends_with(&[250, 250])
}
