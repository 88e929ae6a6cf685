ghost use Rattle.paths.specs.Envelopes.{ForwardAt, IsDomainOf, IsLocalOf, NullAt, PostmasterAt, ReverseAt, domain_part, forward_end, local_part, reverse_end};
ghost use Rattle.address.specs.Parts.{Only};
ghost use Rattle.paths.specs.Paths.{Fault, fault_number};
ghost use Rattle.std.specs.List.{between};
ghost use Rattle.std.specs.Prelude.{◌≡◌, Decides, MatchResult};

use crate::path::{Path, PathFault, read_path};
use address::comparison::is_postmaster;

// Where mail comes from: a mailbox, or nowhere, which is written "<>". That is itself a path, where None would say that there is none.
#[derive(Clone, Copy, PartialEq, Eq, Debug)]
pub enum ReversePath {
    Sender(Path),
    Null,
}

impl ReversePath {
    // How many octets the path has.
    pub fn end(self) -> usize
        ensures { result ≡ reverse_end self }
    {
        match self {
            ReversePath::Sender(p) => p.end,
            ReversePath::Null => 2,
        }
    }
}

// Whom mail is for: a mailbox, or the receiver's own postmaster, which is written "<Postmaster>". That
// is itself a path, and ends elsewhere than "<>".
#[derive(Clone, Copy, PartialEq, Eq, Debug)]
pub enum ForwardPath {
    Recipient(Path),
    Postmaster,
}

impl ForwardPath {
    // How many octets the path has.
    pub fn end(self) -> usize
        ensures { result ≡ forward_end self }
    {
        match self {
            ForwardPath::Recipient(p) => p.end,
            ForwardPath::Postmaster => 12,
        }
    }
}

// Whether octets begin with "<>".
fn is_null(s: &[u8]) -> bool
    ensures { Decides result (NullAt s.now) }
{
    s.starts_with(b"<>")
}

// Whether octets begin with "<Postmaster>", in any case.
fn is_bare_postmaster(s: &[u8]) -> bool
    ensures { Decides result (PostmasterAt s.now) }
{
    let Some(rest) = s.strip_prefix(b"<") else {
        return false;
    };
    let Some((name, behind)) = rest.split_at_checked(10) else {
        return false;
    };
    is_postmaster(name) && behind.starts_with(b">")
}

// The path of MAIL that octets begin with.
pub fn reverse_path(s: &[u8]) -> Result<ReversePath, PathFault>
    ensures { MatchResult result (λ p. Only (ReverseAt s.now) p) (λ e. Fault ReverseAt s.now (fault_number e)) }
{
    if is_null(s) {
        return Ok(ReversePath::Null);
    }
    read_path(s).map(ReversePath::Sender)
}

// The path of RCPT that octets begin with.
pub fn forward_path(s: &[u8]) -> Result<ForwardPath, PathFault>
    ensures { MatchResult result (λ p. Only (ForwardAt s.now) p) (λ e. Fault ForwardAt s.now (fault_number e)) }
{
    if is_bare_postmaster(s) {
        return Ok(ForwardPath::Postmaster);
    }
    read_path(s).map(ForwardPath::Recipient)
}

// The octets from a place up to another, as far as there are any.
fn part(s: &[u8], from: usize, to: usize) -> &[u8]
    ensures { result.now ≡ between from to s.now }
{
    s.get(from..to.min(s.len())).unwrap_or_default()
}

// The domain of the path of RCPT that `line` begins with: what follows "@", or the receiver's own name.
pub fn domain_of<'a>(line: &'a [u8], name: &'a [u8], path: ForwardPath) -> &'a [u8]
    ensures value { result.now ≡ domain_part line.now name.now path }
    ensures meaning { IsDomainOf line.now name.now path result.now }
{
    match path {
        ForwardPath::Recipient(p) if p.at < p.end => part(line, p.at + 1, p.end - 1),
        ForwardPath::Recipient(_) => &[],
        ForwardPath::Postmaster => name,
    }
}

// The local part of the path of RCPT that `line` begins with.
pub fn local_part_of(line: &[u8], path: ForwardPath) -> &[u8]
    ensures value { result.now ≡ local_part line.now path }
    ensures meaning { IsLocalOf line.now path result.now }
{
    match path {
        ForwardPath::Recipient(p) => part(line, 1, p.at),
        ForwardPath::Postmaster => part(line, 1, 11),
    }
}
