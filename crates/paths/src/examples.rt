ghost use Rattle.paths.specs.Examples.{Examples};
ghost use Rattle.std.specs.Prelude.{◌≡◌, Ok};

use crate::path::{Path, PathFault, read_path};

// The path "<a@b>", as it is read.
fn short_path() -> Result<Path, PathFault>
    ensures path { result ≡ Ok (record { at = 2; end = 5 }) }
    ensures examples { Examples }
{
    read_path(b"<a@b>")
}

// Where "<a@b>" ends, as it is read. The worked examples hold.
pub fn worked_examples() -> usize
    ensures ends { result ≡ 5 }
    ensures examples { Examples }
{
    short_path().map_or(0, |path| path.end)
}
