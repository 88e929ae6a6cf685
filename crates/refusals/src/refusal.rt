ghost use Rattle.refusals.specs.Causes.{cause_number};
ghost use Rattle.refusals.specs.Refusals.{fault};
ghost use Rattle.refusals.specs.declared.refusal.Refusal.TheVariants.{NoRoom};
ghost use Rattle.std.specs.Prelude.{◌≡◌, Some, decimal};

use crate::other::OtherCause;
use std::fmt;

// What there is no room for: the causes with a name in the order in which they are judged, and those of other makes of spool. Each has
// its number.
#[derive(Clone, Copy, PartialEq, Eq, Debug)]
pub enum Cause {
    // a payload longer than a slot
    LongPayload,
    // a slot more
    NoSlot,
    // so many octets more
    NoOctets,
    // a row more
    NoRow,
    // an entry more of one mailbox
    EntryLimit,
    // so many octets more of one mailbox
    OctetLimit,
    // a cause of another make of spool, by its number
    Other(OtherCause),
}

impl From<Cause> for u8 {
    ghost from_gives = { λ cause n. n ≡ cause_number cause };

    fn from(cause: Cause) -> u8 {
        match cause {
            Cause::LongPayload => 1,
            Cause::NoSlot => 2,
            Cause::NoOctets => 3,
            Cause::NoRow => 4,
            Cause::EntryLimit => 5,
            Cause::OctetLimit => 6,
            Cause::Other(other) => other.number,
        }
    }
}

// Every number is the number of one cause: of a case with a name, or of another make of spool.
impl From<u8> for Cause {
    ghost from_gives = { λ n cause. cause_number cause ≡ n };

    fn from(number: u8) -> Cause {
        match number {
            1 => Cause::LongPayload,
            2 => Cause::NoSlot,
            3 => Cause::NoOctets,
            4 => Cause::NoRow,
            5 => Cause::EntryLimit,
            6 => Cause::OctetLimit,
            _ => Cause::Other(OtherCause { number }),
        }
    }
}

impl fmt::Display for Cause {
    ghost output = { λ cause. Some (decimal (cause_number cause)) };

    fn fmt<W: fmt::Write>(&self, f: &mut fmt::Formatter<W>) -> fmt::Result {
        write!(f, "{}", u8::from(*self))
    }
}

// Why there is no room: how many layers below the one that was called the cause lies, and which cause it is.
#[derive(Clone, Copy, PartialEq, Eq, Debug)]
pub struct RoomFault {
    pub layer: u8,
    pub cause: Cause,
}

// Why a call is refused: one list for every public call, in the order in which grounds are judged.
#[derive(Clone, Copy, PartialEq, Eq, Debug)]
pub enum Refusal {
    NoSuchSession,
    AlreadyOpen,
    NotOpen,
    BadArea,
    BadSheet,
    ShortOutput,
    NoSuchMailbox,
    NothingHeld,
    ShortBuffer,
    LotOpen,
    NoLot,
    NoRoom(RoomFault),
    NoSuchEntry,
    Unlawful,
    BadRow,
    BadRowMailbox,
}

// A spool that lacks room itself says so by its cause.
impl From<Cause> for Refusal {
    ghost from_gives = { λ cause refusal. refusal ≡ NoRoom (fault cause) };

    fn from(cause: Cause) -> Refusal {
        Refusal::NoRoom(RoomFault { layer: 0, cause })
    }
}

// A build that was refused, with what it was handed.
#[derive(Drop)]
pub struct Rejected<T> {
    pub refusal: Refusal,
    pub given: T,
}
