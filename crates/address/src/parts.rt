ghost use Rattle.std.specs.Prelude.{◌≡◌, ℕ, ◌+◌, ◌-◌, ◌<◌, ◌≤◌, List, length, Decides, MatchOption, ◌==◌, slice_index};
ghost use Rattle.address.specs.Classes.{printable, qtext};
ghost use Rattle.address.specs.Parts.{DomainAt, IsDomain, IsLocal, LocalAt, LocalForm, Only, Quoted, QuotedAt};
ghost use Rattle.address.specs.Quotes.{Step};

use crate::classes::{Class, is_in};
use crate::words::{Word, dotted};

// What follows one step between quote marks: an octet as it is, or a printable one behind a backslash.
fn quotable(s: &[u8]) -> Option<&[u8]>
    ensures { MatchOption result ((rest : List ℕ) → Step s.now rest → ⊥) (λ rest. Step s.now rest.now) }
{
    match s {
        [x, rest @ ..] if is_in(*x, Class::Qtext) => Some(rest),
        [b'\\', x, rest @ ..] if is_in(*x, Class::Printable) => Some(rest),
        _ => None,
    }
}

// How many octets the quoted local part at the front has, with its quote marks.
fn quoted(s: &[u8]) -> Option<usize>
    ensures { MatchOption result ((n : ℕ) → QuotedAt s.now n → ⊥) (λ n. Only (QuotedAt s.now) n) }
{
    let mut rest = s.strip_prefix(b"\"")?;
    loop {
        if let Some(behind) = rest.strip_prefix(b"\"") {
            return Some(s.len() - behind.len());
        }
        rest = quotable(rest)?;
    }
}

// How many octets the local part at the front has, be it too long or not.
fn local_form(s: &[u8]) -> Option<usize>
    ensures { MatchOption result ((n : ℕ) → LocalForm s.now n → ⊥) (λ n. Only (LocalForm s.now) n) }
{
    quoted(s).or_else(|| dotted(s, Word::Atom))
}

// How many octets the local part at the front has. It and `domain` differ in reader, limit and promise.
pub fn local_part(s: &[u8]) -> Option<usize>
    ensures { MatchOption result ((n : ℕ) → LocalAt s.now n → ⊥) (λ n. Only (LocalAt s.now) n) }
{
    local_form(s).filter(|n| *n <= 64)
}

// How many octets the domain at the front has.
pub fn domain(s: &[u8]) -> Option<usize>
    ensures { MatchOption result ((n : ℕ) → DomainAt s.now n → ⊥) (λ n. DomainAt s.now n) }
{
    dotted(s, Word::Label).filter(|n| *n <= 255)
}

// Whether octets are a local part.
pub fn is_local_part(s: &[u8]) -> bool
    ensures { Decides result (IsLocal s.now) }
{
    local_part(s) == Some(s.len())
}

// Whether octets are a domain.
pub fn is_domain(s: &[u8]) -> bool
    ensures { Decides result (IsDomain s.now) }
{
    domain(s) == Some(s.len())
}
