ghost use Rattle.std.specs.Prelude.{◌≡◌};
ghost use Rattle.packed.specs.Packing.{told_by};

use spool::entry::Summary;

// Where the payload of an entry lies, and for which mailbox it is. A log's rows and a slot store's are types of their own: an offset
// is not a slot.
#[derive(Clone, Copy)]
pub struct LogRow {
    pub offset: usize,
    pub length: usize,
    pub mailbox: usize,
}

impl From<LogRow> for Summary {
    ghost from_gives = { λ row summary. summary ≡ told_by row };

    fn from(row: LogRow) -> Summary {
        Summary {
            mailbox: row.mailbox,
            length: row.length,
        }
    }
}
