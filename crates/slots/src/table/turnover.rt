ghost use Rattle.std.specs.Prelude.{◌≡◌, ◌<◌, ◌≤◌, [], ◌∷◌, ◌++◌, length, take};
ghost use Rattle.slots.specs.Tables.{slot_count, used_rows};
ghost use Rattle.std.specs.List.{remove};

use super::SlotTable;
use crate::row::SlotRow;
use spool::list::OrderedList;

impl SlotTable {
    // A table whose slots are all free.
    pub(crate) fn new(rows: Vec<SlotRow>) -> SlotTable
        requires { length rows.items ≤ 32 }
        ensures empty { used_rows result ≡ [] }
        ensures rows { result.rows ≡ rows }
    {
        let mut numbers = [0; 32];
        let mut free = OrderedList::new();
        // The slots' numbers themselves are what is appended.
        for slot in 0..rows.len() {
            let _ = free.append(&mut numbers, slot);
        }
        SlotTable {
            rows,
            used: OrderedList::new(),
            numbers,
            free,
        }
    }

    // How many slots there are.
    pub(crate) fn slots(&self) -> usize
        ensures { result ≡ slot_count self.now }
    {
        self.rows.len()
    }

    // How many entries there are.
    pub(crate) fn len(&self) -> usize
        ensures { result ≡ length (used_rows self.now) }
    {
        self.used.len(self.rows.as_slice())
    }

    // The rows of the entries.
    pub(crate) fn rows(&self) -> &[SlotRow]
        ensures { result.now ≡ used_rows self.now }
    {
        &self.rows[..self.len()]
    }

    // Takes a free slot for a new entry, whose row comes behind the others, and answers it.
    pub(crate) fn claim(&mut self, mailbox: usize, size: usize) -> usize
        requires { length (used_rows self.old) < slot_count self.old }
        ensures rows { used_rows self.new ≡ used_rows self.old ++ (record { slot = result; length = size; mailbox = mailbox }) ∷ [] }
        ensures slots { slot_count self.new ≡ slot_count self.old }
    {
        let last = self.free.len(&self.numbers) - 1;
        let slot = self.numbers[last];
        self.free.truncate(last);
        let row = SlotRow {
            slot,
            length: size,
            mailbox,
        };
        let _ = self.used.append(self.rows.as_mut_slice(), row);
        slot
    }

    // Takes out the row of an entry, and frees its slot.
    pub(crate) fn release(&mut self, at: usize)
        requires { at < length (used_rows self.old) }
        ensures rows { used_rows self.new ≡ remove (used_rows self.old) at }
        ensures slots { slot_count self.new ≡ slot_count self.old }
    {
        let slot = self.rows[at].slot;
        let _ = self.used.remove(self.rows.as_mut_slice(), at);
        let _ = self.free.append(&mut self.numbers, slot);
    }

    // Keeps the rows of the first entries, and frees the slots of the others.
    pub(crate) fn keep(&mut self, len: usize)
        requires { len ≤ length (used_rows self.old) }
        ensures rows { used_rows self.new ≡ take len (used_rows self.old) }
        ensures slots { slot_count self.new ≡ slot_count self.old }
    {
        let end = self.len();
        // From the last on, so that no row moves.
        for at in (len..end).rev() {
            self.release(at);
        }
    }
}
