ghost use Rattle.std.specs.Prelude.{◌≡◌, ℕ, ◌+◌, ◌≤◌, length};
ghost use Rattle.slots.specs.Slots.{once, spares, takes};
ghost use Rattle.spool.specs.Lists.{records};

use crate::row::SlotRow;
use spool::list::OrderedList;

pub mod turnover;

// A row for each slot: the front ones are those of the entries, in filing order. The slots that no entry has are free.
#[derive(Drop)]
pub struct SlotTable {
    rows: Vec<SlotRow>,
    used: OrderedList,
    // the free slots, in fixed memory
    numbers: [usize; 32],
    free: OrderedList,
    ghost few: { length rows.items ≤ 32 },
    ghost wide: { length numbers ≡ 32 },
    ghost whole: { length (records used rows.items) + length (records free numbers) ≡ length rows.items },
    ghost apart: { ((slot : ℕ) → takes slot (records used rows.items) + spares slot (records free numbers) ≡ once slot (length rows.items)) },
}
