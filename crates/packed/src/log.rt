ghost use Rattle.std.specs.Prelude.{◌≡◌, ◌≤◌, length, take};
ghost use Rattle.packed.specs.Packing.{offsets, starts, total};
ghost use Rattle.spool.specs.Lots.{filed_in};

use crate::row::LogRow;
use spool::list::OrderedList;
use spool::lot::Lot;

pub mod edit;

// The octets hold the payloads of the held entries and then of the staged ones; a row says where each lies.
#[derive(Drop)]
pub struct PackedLog {
    octets: Vec<u8>,
    rows: Vec<LogRow>,
    packed: OrderedList,
    entries: OrderedList,
    lot: Lot,
    ghost octets_low: { 512 ≤ length octets.items },
    ghost octets_high: { length octets.items ≤ 65536 },
    ghost rows_low: { 1 ≤ length rows.items },
    ghost rows_high: { length rows.items ≤ 256 },
    ghost octets_fit: { packed.count ≤ length octets.items },
    ghost rows_fit: { entries.count ≤ length rows.items },
    ghost filed_fit: { filed_in lot entries.count ≤ entries.count },
    ghost no_gaps: { offsets (take entries.count rows.items) ≡ starts 0 (take entries.count rows.items) },
    ghost no_rest: { total (take entries.count rows.items) ≡ packed.count },
}
