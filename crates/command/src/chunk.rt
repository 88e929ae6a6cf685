ghost use Rattle.address.specs.Parts.{Only};
ghost use Rattle.command.specs.Chunks.{IsChunk};
ghost use Rattle.std.specs.Option.{MatchOption};

use crate::numeral::{cut_digits, numeral};

// What BDAT announces: how many octets follow, and whether they end the message.
#[derive(Clone, Copy, PartialEq, Eq, Debug)]
pub struct Chunk {
    pub size: usize,
    pub last: bool,
}

// The argument of BDAT.
pub fn read_chunk(argument: &[u8]) -> Option<Chunk>
    ensures { MatchOption result ((c : Chunk) → IsChunk argument.now c → ⊥) (λ c. Only (IsChunk argument.now) c) }
{
    let (digits, tail) = cut_digits(argument);
    let size = numeral(digits, 9)?;
    if tail.is_empty() {
        return Some(Chunk { size, last: false });
    }
    if tail.eq_ignore_ascii_case(b" LAST") {
        return Some(Chunk { size, last: true });
    }
    None
}
