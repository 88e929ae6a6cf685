ghost use Rattle.std.specs.Prelude.{◌≡◌, min, is_ok, IfOk, MatchResult};
ghost use Rattle.quota.specs.Quotas.{Kept, allows, lawful, raised};
ghost use Rattle.quota.specs.Shares.{both, entries_of, octets_of};
ghost use Rattle.refusals.specs.Refusals.{no_room, notice, plain};
ghost use Rattle.std.proofs.Common.{rules};

use crate::limits::Limits;
use crate::tally::Share;
use refusals::refusal::{Cause, Refusal, Rejected, RoomFault};
use spool::entry::{Part, Summary};
use spool::interface::Spool;

// A spool that holds each mailbox to limits, over the spool that it owns. What a mailbox has is counted there at each question.
#[derive(Drop)]
pub struct Quota<S: Spool> {
    below: S,
    limits: Limits,
    pub ghost kept: { Kept limits (both (S.Spool.held below) (S.Spool.lot below)) },
}

impl<S: Spool> Quota<S> {
    // A layer over an empty spool, which is handed back where the build is refused.
    pub fn build(below: S, entries: usize, octets: usize) -> Result<Quota<S>, Rejected<S>>
        ensures answer { is_ok result ≡ lawful entries octets (S.Spool.held below) (S.Spool.lot below) }
        ensures within { IfOk result (λ q. Kept q.limits (both (S.Spool.held q.below) (S.Spool.lot q.below))) }
        ensures values { MatchResult result (λ q. (q.below ≡ below) × (q.limits.entries ≡ entries) × (q.limits.octets ≡ octets)) (λ x. (notice x.refusal ≡ plain 14) × (x.given ≡ below)) }
    {
        if !((1..=1000).contains(&entries)
            && (512..=65536).contains(&octets)
            && below.count(Part::Held) == 0
            && !below.lot_is_open())
        {
            return Err(Rejected {
                refusal: Refusal::Unlawful,
                given: below,
            });
        }
        Ok(Quota {
            below,
            limits: Limits { entries, octets },
        })
    }

    // What a mailbox has below.
    fn share(&self, mailbox: usize) -> Share
        ensures entries { result.entries ≡ entries_of mailbox (both (S.Spool.held self.now.below) (S.Spool.lot self.now.below)) }
        ensures octets { result.octets ≡ octets_of mailbox (both (S.Spool.held self.now.below) (S.Spool.lot self.now.below)) }
    {
        Share {
            entries: 0,
            octets: 0,
        }
        .with_part(&self.below, Part::Held, mailbox)
        .with_part(&self.below, Part::Staged, mailbox)
    }
}

// A refusal from below, as it is seen from one layer above.
fn lift(refusal: Refusal) -> Refusal
    ensures { notice result ≡ raised (notice refusal) }
{
    match refusal {
        Refusal::NoRoom(fault) => Refusal::NoRoom(RoomFault {
            layer: fault.layer.min(8) + 1,
            ..fault
        }),
        other => other,
    }
}

impl<S: Spool> Spool for Quota<S> {
    ghost held = { λ q. S.Spool.held q.below };

    ghost lot = { λ q. S.Spool.lot q.below };

    ghost room = { λ q m n. allows q.limits (both (S.Spool.held q.below) (S.Spool.lot q.below)) m n (S.Spool.room q.below m n) };

    ghost floor = { λ q. min q.limits.octets (S.Spool.floor q.below) };

    ghost high_floor = { Prim.search rules };

    ghost empty_has_room = { Prim.search rules };

    fn count(&self, part: Part) -> usize {
        self.below.count(part)
    }

    fn entry(&self, part: Part, at: usize) -> Result<Summary, Refusal> {
        self.below.entry(part, at)
    }

    fn lot_is_open(&self) -> bool {
        self.below.lot_is_open()
    }

    fn room(&self, mailbox: usize, size: usize) -> Result<(), Refusal> {
        if mailbox >= 64 {
            return Err(Refusal::NoSuchMailbox);
        }
        let share = self.share(mailbox);
        if share.entries >= self.limits.entries {
            return Err(Refusal::from(Cause::EntryLimit));
        }
        if size > self.limits.octets - share.octets {
            return Err(Refusal::from(Cause::OctetLimit));
        }
        self.below.room(mailbox, size).map_err(lift)
    }

    fn floor(&self) -> usize {
        self.limits.octets.min(self.below.floor())
    }

    fn copy(&self, at: usize, buffer: &mut [u8]) -> Result<usize, Refusal> {
        self.below.copy(at, buffer)
    }

    fn open_lot(&mut self) -> Result<(), Refusal> {
        self.below.open_lot()
    }

    fn stage(&mut self, mailbox: usize, payload: &[u8]) -> Result<(), Refusal> {
        if mailbox >= 64 {
            return Err(Refusal::NoSuchMailbox);
        }
        if !self.below.lot_is_open() {
            return Err(Refusal::NoLot);
        }
        self.room(mailbox, payload.len())?;
        self.below.stage(mailbox, payload)
    }

    fn commit(&mut self) -> usize {
        self.below.commit()
    }

    fn withdraw(&mut self) -> usize {
        self.below.withdraw()
    }

    fn remove(&mut self, at: usize) -> Result<(), Refusal> {
        self.below.remove(at)
    }
}
