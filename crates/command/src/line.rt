ghost use Rattle.std.specs.Prelude.{◌≡◌, ◌∷◌, ◌++◌, length, drop, Decides, MatchOption};
ghost use Rattle.address.specs.Words.{run};
ghost use Rattle.command.specs.Lines.{Begins, Printable, argument_part, not_space, verb_of};

use crate::verb::{Verb, named};
use address::classes::{Class, is_in};

// Octets cut at the first space: what stands before it, and what stands behind it, if there is one.
pub(crate) fn cut_at_space(s: &[u8]) -> (&[u8], Option<&[u8]>)
    ensures word { result.0.now ≡ run not_space s.now }
    ensures rest { MatchOption result.1 (result.0.now ≡ s.now) (λ rest. s.now ≡ result.0.now ++ 32 ∷ rest.now) }
{
    let at = s.iter().take_while(|x| **x != b' ').count();
    (&s[..at], s.get(at + 1..))
}

// The octets from a place on, as far as there are any.
pub(crate) fn behind(s: &[u8], from: usize) -> &[u8]
    ensures { result.now ≡ drop from s.now }
{
    s.get(from..).unwrap_or_default()
}

// The verb of a line: what stands before the first space, read in any case.
pub fn verb_of(line: &[u8]) -> Option<Verb>
    ensures { result ≡ verb_of line.now }
{
    named(cut_at_space(line).0)
}

// The argument of a line: what stands behind the first space.
pub fn argument_of(line: &[u8]) -> &[u8]
    ensures { result.now ≡ argument_part line.now }
{
    cut_at_space(line).1.unwrap_or_default()
}

// Whether every octet of a line is printable.
pub fn is_printable(line: &[u8]) -> bool
    ensures { Decides result (Printable line.now) }
{
    line.iter().all(|x| is_in(*x, Class::Printable))
}

// What stands behind a word that octets begin with, in any case.
pub(crate) fn strip_word<'a>(s: &'a [u8], word: &[u8]) -> Option<&'a [u8]>
    ensures { MatchOption result (Begins word.now s.now → ⊥) (λ rest. Begins word.now s.now × (rest.now ≡ drop (length word.now) s.now)) }
{
    let (front, rest) = s.split_at_checked(word.len())?;
    front.eq_ignore_ascii_case(word).then_some(rest)
}
