ghost use Rattle.std.specs.Prelude.{◌≡◌, ℕ, ◌+◌, ◌<◌, ◌≤◌, [], ◌++◌, length, map, take, drop, None, Some, vec_len, MatchResult};
ghost use Rattle.std.specs.List.{slice_get};
ghost use Rattle.packed.specs.Meaning.{LawfulLog, floor_of, held_of, lot_of, part_rows, room_for, rows_of};
ghost use Rattle.packed.specs.Packing.{lowered, total};
ghost use Rattle.refusals.specs.Refusals.{notice, plain, told};
ghost use Rattle.spool.specs.Lists.{present};
ghost use Rattle.spool.specs.declared.entry.Part.TheVariants.{Held};
ghost use Rattle.packed.specs.Logs.{free_room, empty_free};

use super::PackedLog;
use crate::row::LogRow;
use refusals::refusal::{Cause, Refusal, Rejected};
use spool::entry::{Part, Summary};
use spool::interface::Spool;
use spool::list::OrderedList;
use spool::lot::Lot;

// An empty log over 512 to 65,536 octets and 1 to 256 rows; refused, and the memory handed back, where it has more or less.
pub fn build(
    octets: Vec<u8>,
    rows: Vec<LogRow>,
) -> Result<PackedLog, Rejected<(Vec<u8>, Vec<LogRow>)>>
    ensures { MatchResult result (λ s. LawfulLog (vec_len octets) (vec_len rows) × (held_of s ≡ []) × (lot_of s ≡ None) × (floor_of s ≡ vec_len octets)) (λ e. (notice e.refusal ≡ plain 14) × (e.given ≡ (octets, rows)) × (LawfulLog (vec_len octets) (vec_len rows) → ⊥)) }
{
    let lawful = (512..=65536).contains(&octets.len()) && (1..=256).contains(&rows.len());
    if !lawful {
        return Err(Rejected {
            refusal: Refusal::Unlawful,
            given: (octets, rows),
        });
    }
    Ok(PackedLog {
        octets,
        rows,
        packed: OrderedList::new(),
        entries: OrderedList::new(),
        lot: Lot::none(),
    })
}

// Lowers the offsets of rows.
fn lower(rows: &mut [LogRow], by: usize)
    requires { (at : ℕ) (r : LogRow) → slice_get rows.old at ≡ Some r → by ≤ r.offset }
    ensures { rows.new ≡ map (lowered by) rows.old }
{
    for row in rows.iter_mut() {
        row.offset -= by;
    }
}

impl PackedLog {
    // The rows of the entries.
    fn entry_rows(&self) -> &[LogRow]
        ensures { result.now ≡ rows_of self.now }
    {
        &self.rows[..self.entries.len(self.rows.as_slice())]
    }

    // Where the staged payloads begin, which is where the held ones end.
    fn lot_start(&self) -> usize
        ensures { result ≡ total (part_rows Held self.now) }
    {
        match self.lot.part(self.entry_rows(), Part::Staged) {
            [row, ..] => row.offset,
            [] => self.packed.len(self.octets.as_slice()),
        }
    }
}

impl Spool for PackedLog {
    ghost held = { held_of };

    ghost lot = { lot_of };

    ghost room = { room_for };

    ghost floor = { floor_of };

    ghost high_floor = { λ s. s.octets_low };

    ghost empty_has_room = { λ s h l m n k f. free_room s m n (empty_free s h l n f) };

    #[tactic(auto, using(crate::proofs::Telling::count_told))]
    fn count(&self, part: Part) -> usize {
        self.lot.part(self.entry_rows(), part).len()
    }

    fn entry(&self, part: Part, at: usize) -> Result<Summary, Refusal> {
        self.lot
            .entry(self.entry_rows(), part, at)
            .map(Summary::from)
    }

    fn lot_is_open(&self) -> bool {
        self.lot.is_open()
    }

    fn room(&self, mailbox: usize, size: usize) -> Result<(), Refusal> {
        if mailbox > 63 {
            return Err(Refusal::NoSuchMailbox);
        }
        if size > self.octets.len() - self.packed.len(self.octets.as_slice()) {
            return Err(Refusal::from(Cause::NoOctets));
        }
        if self.entries.len(self.rows.as_slice()) >= self.rows.len() {
            return Err(Refusal::from(Cause::NoRow));
        }
        Ok(())
    }

    fn floor(&self) -> usize {
        self.octets.len()
    }

    fn copy(&self, at: usize, buffer: &mut [u8]) -> Result<usize, Refusal> {
        let row = self.lot.entry(self.entry_rows(), Part::Held, at)?;
        if row.length > buffer.len() {
            return Err(Refusal::ShortBuffer);
        }
        let payload = &self.octets[row.offset..row.offset + row.length];
        buffer[..row.length].copy_from_slice(payload);
        Ok(row.length)
    }

    fn open_lot(&mut self) -> Result<(), Refusal> {
        self.lot.open(self.entries.len(self.rows.as_slice()))
    }

    fn stage(&mut self, mailbox: usize, payload: &[u8]) -> Result<(), Refusal> {
        if mailbox > 63 {
            return Err(Refusal::NoSuchMailbox);
        }
        if !self.lot.is_open() {
            return Err(Refusal::NoLot);
        }
        self.room(mailbox, payload.len())?;
        let row = LogRow {
            offset: self.packed.len(self.octets.as_slice()),
            length: payload.len(),
            mailbox,
        };
        let _ = self.packed.extend(self.octets.as_mut_slice(), payload);
        let _ = self.entries.append(self.rows.as_mut_slice(), row);
        Ok(())
    }

    fn commit(&mut self) -> usize {
        let staged = self.count(Part::Staged);
        let _ = self.lot.end();
        staged
    }

    fn withdraw(&mut self) -> usize {
        let staged = self.count(Part::Staged);
        let start = self.lot_start();
        let Some(filed) = self.lot.end() else {
            return 0;
        };
        self.packed.truncate(start);
        self.entries.truncate(filed);
        staged
    }

    fn remove(&mut self, at: usize) -> Result<(), Refusal> {
        if self.lot.is_open() {
            return Err(Refusal::LotOpen);
        }
        let row = self.entries.get(self.rows.as_slice(), at)?;
        let end = self.entries.len(self.rows.as_slice());
        lower(&mut self.rows[at + 1..end], row.length);
        let _ = self
            .packed
            .remove_run(self.octets.as_mut_slice(), row.offset, row.length);
        let _ = self.entries.remove(self.rows.as_mut_slice(), at);
        Ok(())
    }
}
