ghost use Rattle.std.specs.Prelude.{◌≡◌, ℕ, ◌+◌, ◌<◌, true, false, List, ◌∷◌, length, drop, Decides, MatchResult, ◌≢◌, Some};
ghost use Rattle.std.specs.Fmt.{decimal};
ghost use Rattle.address.specs.Parts.{Only};
ghost use Rattle.paths.specs.Paths.{Fault, PathAt, fault_number};

use address::parts::{domain, local_part};
use std::fmt;

// Where the parts of a path lie in the octets that begin with it: the local part from place 1 up to `at`, where "@" stands,
// the domain behind it up to ">", which is the last octet before `end`.
#[derive(Clone, Copy, PartialEq, Eq, Debug)]
pub struct Path {
    pub at: usize,
    pub end: usize,
}

// Why octets begin with no path: the first fault in this order.
#[derive(Clone, Copy, PartialEq, Eq, Debug)]
pub enum PathFault {
    NoOpening = 1,
    BadLocalPart = 2,
    BadDomain = 3,
    NoClosing = 4,
}

// The number of a fault, as replies tell it.
impl From<PathFault> for u8 {
    ghost from_gives = { λ fault number. number ≡ fault_number fault };

    fn from(fault: PathFault) -> u8 {
        fault as u8
    }
}

// A fault is printed as its number.
impl fmt::Display for PathFault {
    ghost output = { λ fault. Some (decimal (fault_number fault)) };

    fn fmt<W: fmt::Write>(&self, f: &mut fmt::Formatter<W>) -> fmt::Result {
        write!(f, "{}", u8::from(*self))
    }
}

// The path that octets begin with.
pub fn read_path(s: &[u8]) -> Result<Path, PathFault>
    ensures { MatchResult result (λ p. Only (PathAt s.now) p) (λ e. Fault PathAt s.now (fault_number e)) }
{
    let rest = s.strip_prefix(b"<").ok_or(PathFault::NoOpening)?;
    let local = local_part(rest).ok_or(PathFault::BadLocalPart)?;
    let after = rest[local..]
        .strip_prefix(b"@")
        .ok_or(PathFault::BadDomain)?;
    let size = domain(after).ok_or(PathFault::BadDomain)?;
    after[size..]
        .strip_prefix(b">")
        .ok_or(PathFault::NoClosing)?;
    Ok(Path {
        at: 1 + local,
        end: local + size + 3,
    })
}
