ghost use Rattle.std.specs.Prelude.{◌≡◌, ◌/◌, [], None, vec_len, MatchResult};
ghost use Rattle.slots.specs.Stores.{LawfulSlots, floor_of, held_of, lot_of, room_for, slots_of};
ghost use Rattle.refusals.specs.Refusals.{notice, plain};
ghost use Rattle.slots.specs.Holdings.{empty_room};

use super::SlotStore;
use crate::row::SlotRow;
use crate::table::SlotTable;
use refusals::refusal::{Cause, Refusal, Rejected};
use spool::entry::{Part, Summary};
use spool::interface::Spool;
use spool::lot::Lot;

// An empty store with a slot for each row; refused, and the memory handed back, where that is not lawful.
pub fn build(
    octets: Vec<u8>,
    rows: Vec<SlotRow>,
) -> Result<SlotStore, Rejected<(Vec<u8>, Vec<SlotRow>)>>
    ensures { MatchResult result (λ s. LawfulSlots (vec_len octets) (vec_len rows) × (held_of s ≡ []) × (lot_of s ≡ None) × (slots_of s ≡ vec_len rows) × (floor_of s ≡ vec_len octets / vec_len rows)) (λ e. (notice e.refusal ≡ plain 14) × (e.given ≡ (octets, rows)) × (LawfulSlots (vec_len octets) (vec_len rows) → ⊥)) }
{
    let count = rows.len();
    let lawful = (1..=32).contains(&count)
        && octets.len() % count == 0
        && (512..=65536).contains(&(octets.len() / count));
    if !lawful {
        return Err(Rejected {
            refusal: Refusal::Unlawful,
            given: (octets, rows),
        });
    }
    let size = octets.len() / count;
    Ok(SlotStore {
        octets,
        size,
        table: SlotTable::new(rows),
        lot: Lot::none(),
    })
}

impl Spool for SlotStore {
    ghost held = { held_of };

    ghost lot = { lot_of };

    ghost room = { room_for };

    ghost floor = { floor_of };

    ghost high_floor = { λ s. s.high };

    ghost empty_has_room = { λ s h k m n _ l. empty_room s h k m n l };

    #[tactic(auto, using(crate::proofs::Telling::count_told))]
    fn count(&self, part: Part) -> usize {
        self.lot.part(self.table.rows(), part).len()
    }

    fn entry(&self, part: Part, at: usize) -> Result<Summary, Refusal> {
        self.lot
            .entry(self.table.rows(), part, at)
            .map(Summary::from)
    }

    fn lot_is_open(&self) -> bool {
        self.lot.is_open()
    }

    fn room(&self, mailbox: usize, size: usize) -> Result<(), Refusal> {
        if mailbox > 63 {
            return Err(Refusal::NoSuchMailbox);
        }
        if size > self.size {
            return Err(Refusal::from(Cause::LongPayload));
        }
        if self.table.len() >= self.table.slots() {
            return Err(Refusal::from(Cause::NoSlot));
        }
        Ok(())
    }

    fn floor(&self) -> usize {
        self.size
    }

    fn copy(&self, at: usize, buffer: &mut [u8]) -> Result<usize, Refusal> {
        let row = self.lot.entry(self.table.rows(), Part::Held, at)?;
        if row.length > buffer.len() {
            return Err(Refusal::ShortBuffer);
        }
        let from = row.slot * self.size;
        buffer[..row.length].copy_from_slice(&self.octets[from..from + row.length]);
        Ok(row.length)
    }

    fn open_lot(&mut self) -> Result<(), Refusal> {
        self.lot.open(self.table.len())
    }

    fn stage(&mut self, mailbox: usize, payload: &[u8]) -> Result<(), Refusal> {
        if mailbox > 63 {
            return Err(Refusal::NoSuchMailbox);
        }
        if !self.lot.is_open() {
            return Err(Refusal::NoLot);
        }
        self.room(mailbox, payload.len())?;
        let slot = self.table.claim(mailbox, payload.len());
        let from = slot * self.size;
        self.octets[from..from + payload.len()].copy_from_slice(payload);
        Ok(())
    }

    fn commit(&mut self) -> usize {
        let staged = self.count(Part::Staged);
        let _ = self.lot.end();
        staged
    }

    fn withdraw(&mut self) -> usize {
        let staged = self.count(Part::Staged);
        let Some(filed) = self.lot.end() else {
            return 0;
        };
        self.table.keep(filed);
        staged
    }

    fn remove(&mut self, at: usize) -> Result<(), Refusal> {
        if self.lot.is_open() {
            return Err(Refusal::LotOpen);
        }
        if at >= self.table.len() {
            return Err(Refusal::NoSuchEntry);
        }
        self.table.release(at);
        Ok(())
    }
}
