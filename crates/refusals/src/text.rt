ghost use Rattle.refusals.specs.Refusals.{notice};
ghost use Rattle.refusals.specs.Texts.{sentence};
ghost use Rattle.std.specs.Prelude.{◌≡◌, Some};

use crate::refusal::Refusal;
use std::fmt;

impl Refusal {
    // The refusal's place in the order of judgement, 1 to 16. It is told by cases: a case with a fault has no number of its own in
    // the language, and `u8::from(refusal)` would not say that the octet is a place in an order.
    pub fn number(&self) -> u8
        ensures { result ≡ (notice self.now).number }
    {
        match *self {
            Refusal::NoSuchSession => 1,
            Refusal::AlreadyOpen => 2,
            Refusal::NotOpen => 3,
            Refusal::BadArea => 4,
            Refusal::BadSheet => 5,
            Refusal::ShortOutput => 6,
            Refusal::NoSuchMailbox => 7,
            Refusal::NothingHeld => 8,
            Refusal::ShortBuffer => 9,
            Refusal::LotOpen => 10,
            Refusal::NoLot => 11,
            Refusal::NoRoom(_) => 12,
            Refusal::NoSuchEntry => 13,
            Refusal::Unlawful => 14,
            Refusal::BadRow => 15,
            Refusal::BadRowMailbox => 16,
        }
    }
}

impl fmt::Display for Refusal {
    ghost output = { λ r. Some (sentence r) };

    fn fmt<W: fmt::Write>(&self, f: &mut fmt::Formatter<W>) -> fmt::Result {
        match *self {
            Refusal::NoSuchSession => write!(f, "there is no such session: sessions are 0 to 7"),
            Refusal::AlreadyOpen => write!(f, "the session is already open"),
            Refusal::NotOpen => write!(f, "the session is not open"),
            Refusal::BadArea => write!(
                f,
                "the area must have 512 to 65536 octets, and the same number at each feed"
            ),
            Refusal::BadSheet => write!(f, "the sheet must have 100 records"),
            Refusal::ShortOutput => write!(f, "the output must have at least 256 octets"),
            Refusal::NoSuchMailbox => write!(f, "there is no such mailbox: mailboxes are 0 to 63"),
            Refusal::NothingHeld => write!(f, "nothing is held for the mailbox"),
            Refusal::ShortBuffer => write!(f, "the buffer is shorter than the payload"),
            Refusal::LotOpen => write!(f, "a lot is open"),
            Refusal::NoLot => write!(f, "no lot is open"),
            Refusal::NoRoom(fault) => {
                write!(
                    f,
                    "there is no room: layer {}, cause {}",
                    fault.layer, fault.cause
                )
            }
            Refusal::NoSuchEntry => write!(f, "there is no such entry or record"),
            Refusal::Unlawful => write!(f, "the build breaks a limit, or stands on a spool in use"),
            Refusal::BadRow => write!(f, "a directory row lies outside the text or is misspelt"),
            Refusal::BadRowMailbox => write!(f, "a directory row names a mailbox above 63"),
        }
    }
}
