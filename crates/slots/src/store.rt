ghost use Rattle.std.specs.Prelude.{◌≡◌, ◌*◌, ◌≤◌, length};
ghost use Rattle.slots.specs.Slots.{overlong};
ghost use Rattle.slots.specs.Tables.{slot_count, used_rows};
ghost use Rattle.spool.specs.Lots.{filed_in};

use crate::table::SlotTable;
use spool::lot::Lot;

pub mod filing;

// A slot store: its octets are cut into slots of one size, and its table has a row for each entry, held or staged.
#[derive(Drop)]
pub struct SlotStore {
    octets: Vec<u8>,
    size: usize,
    table: SlotTable,
    lot: Lot,
    ghost even: { slot_count table * size ≡ length octets.items },
    ghost high: { 512 ≤ size },
    ghost some: { 1 ≤ slot_count table },
    ghost short: { overlong size (used_rows table) ≡ 0 },
    ghost front: { filed_in lot (length (used_rows table)) ≤ length (used_rows table) },
}
