ghost use Rattle.std.specs.Prelude.{◌≡◌};
ghost use Rattle.slots.specs.Slots.{told_by};

use spool::entry::Summary;

// Which slot the payload of an entry lies in, how many octets it has, and whom it is for.
#[derive(Clone, Copy)]
pub struct SlotRow {
    pub slot: usize,
    pub length: usize,
    pub mailbox: usize,
}

impl From<SlotRow> for Summary {
    ghost from_gives = { λ row summary. summary ≡ told_by row };

    fn from(row: SlotRow) -> Summary {
        Summary {
            mailbox: row.mailbox,
            length: row.length,
        }
    }
}
