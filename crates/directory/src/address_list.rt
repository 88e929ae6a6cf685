ghost use Rattle.directory.specs.Rows.{IsAddress, before_at, behind_at, fits_address};
ghost use Rattle.std.specs.Prelude.{◌≡◌, ℕ, ◌<◌, ◌∷◌, ◌++◌, length, MatchOption, ◌≢◌, slice_index};

use crate::listing::Listing;
use crate::spelling::Spelling;
use address::comparison::{same_domain, same_local_part};
use address::parts::{is_domain, is_local_part};

// Rows that spell addresses: a local part, "@" and a domain.
pub struct Addresses;

// A directory whose rows spell addresses.
pub type AddressList = Listing<Addresses>;

// Where the last "@" stands.
fn last_at(s: &[u8]) -> Option<usize>
    ensures { MatchOption result ((k : ℕ) → k < length s.now → slice_index s.now k ≢ 64) (λ at. (at < length s.now) × (slice_index s.now at ≡ 64) × ((k : ℕ) → at < k → k < length s.now → slice_index s.now k ≢ 64)) }
{
    s.iter().rposition(|octet| *octet == b'@')
}

// What stands before the last "@", and what stands behind it.
fn cut(s: &[u8]) -> (&[u8], &[u8])
    ensures before { result.0.now ≡ before_at s.now }
    ensures behind { result.1.now ≡ behind_at s.now }
    ensures split { length result.1.now < length s.now → s.now ≡ before_at s.now ++ 64 ∷ behind_at s.now }
{
    match last_at(s) {
        Some(at) => (&s[..at], &s[at + 1..]),
        None => (&[], s),
    }
}

impl Spelling for Addresses {
    ghost Spelt = { IsAddress };

    ghost fitting = { fits_address };

    fn spells(octets: &[u8]) -> bool {
        let (local, domain) = cut(octets);
        domain.len() < octets.len() && is_local_part(local) && is_domain(domain)
    }

    fn fits(row: &[u8], local: &[u8], domain: &[u8]) -> bool {
        let (before, behind) = cut(row);
        same_local_part(before, local) && same_domain(behind, domain)
    }
}
