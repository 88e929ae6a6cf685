ghost use Rattle.std.specs.Prelude.{◌≡◌, ℕ, ◌+◌, ◌-◌, ◌<◌, ◌≤◌, length, take, drop, Decides, MatchOption};
ghost use Rattle.address.specs.Words.{AllIn, Dotted, IsLabel, IsWord, label_octet, or_dot, run, word_octet};
ghost use Rattle.std.specs.List.{prefix_len};
ghost use Rattle.address.specs.Classes.{let_dig};

use crate::classes::{Class, is_in};

// What stands between the dots: atoms in a local part, labels in a domain. The grammar has these two, and its definitions
// name them.
#[derive(Clone, Copy)]
pub enum Word {
    Atom,
    Label,
}

impl Word {
    // Whether a word takes an octet.
    fn takes(self, octet: u8) -> bool
        ensures { result ≡ word_octet self octet }
    {
        match self {
            Word::Atom => is_in(octet, Class::Atext),
            Word::Label => is_in(octet, Class::LetDig) || octet == b'-',
        }
    }

    // How many octets that it takes stand at the front.
    fn run(self, s: &[u8]) -> usize
        ensures { result ≡ prefix_len (word_octet self) s.now }
    {
        s.iter().take_while(|octet| self.takes(**octet)).count()
    }

    // Whether octets, each of which it takes, are such a word.
    fn is(self, octets: &[u8]) -> bool
        requires { AllIn (word_octet self) octets.now }
        ensures { Decides result (IsWord self octets.now) }
    {
        match self {
            Word::Atom => !octets.is_empty(),
            Word::Label => is_label(octets),
        }
    }
}

// Whether an octet is a letter or a digit.
fn is_let_dig(octet: &u8) -> bool
    ensures { result ≡ let_dig octet.now }
{
    is_in(*octet, Class::LetDig)
}

// Whether octets, each of which a label takes, are a label.
fn is_label(octets: &[u8]) -> bool
    requires { AllIn label_octet octets.now }
    ensures { Decides result (IsLabel octets.now) }
{
    octets.len() <= 63
        && octets.first().is_some_and(is_let_dig)
        && octets.last().is_some_and(is_let_dig)
}

// How many octets the longest run of words and dots at the front has, where it is words with a dot between each and the next.
pub(crate) fn dotted(s: &[u8], word: Word) -> Option<usize>
    ensures { MatchOption result (Dotted word (run (or_dot (word_octet word)) s.now) → ⊥) (λ n. (n ≡ prefix_len (or_dot (word_octet word)) s.now) × Dotted word (take n s.now)) }
{
    let mut rest = s;
    loop {
        let (octets, behind) = rest.split_at(word.run(rest));
        if !word.is(octets) {
            return None;
        }
        match behind {
            [b'.', after @ ..] => rest = after,
            _ => return Some(s.len() - behind.len()),
        }
    }
}
