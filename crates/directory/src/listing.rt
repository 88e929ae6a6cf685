ghost use Rattle.std.specs.Prelude.{◌≡◌, ℕ, ◌+◌, ◌<◌, ◌≤◌, length, Decides, MatchResult, slice_index_or};
ghost use Rattle.directory.specs.Rows.{GoodMailboxes, GoodRow, GoodRows, Lawful, Refused, first_fit};
ghost use Rattle.directory.specs.Fitting.{first_below};
ghost use Rattle.directory.specs.declared.row.DirectoryRow.{DirectoryRow};
ghost use Rattle.refusals.specs.Refusals.{notice};

use crate::directory::Directory;
use crate::row::DirectoryRow;
use crate::spelling::Spelling;
use refusals::refusal::{Refusal, Rejected};
use std::marker::PhantomData;

// A directory of a text with rows, which are spelt as S has it.
#[derive(Drop)]
pub struct Listing<S> {
    text: Vec<u8>,
    rows: Vec<DirectoryRow>,
    spelling: PhantomData<S>,
    ghost within: { ((k : ℕ) (d : DirectoryRow) → k < length rows.items → (slice_index_or rows.items k d).offset + (slice_index_or rows.items k d).length ≤ length text.items) },
    ghost below: { ((k : ℕ) (d : DirectoryRow) → k < length rows.items → (slice_index_or rows.items k d).mailbox < 64) },
}

// Whether a row lies in the text and is spelt as S has it.
fn is_good<S: Spelling>(text: &[u8], row: DirectoryRow) -> bool
    ensures { Decides result (GoodRow S.Spelt text.now row) }
{
    row.offset <= text.len() && row.length <= text.len() - row.offset && S::spells(row.octets(text))
}

// Whether every row lies in the text and is spelt as S has it.
fn all_good<S: Spelling>(text: &[u8], rows: &[DirectoryRow]) -> bool
    ensures { Decides result (GoodRows S.Spelt text.now rows.now) }
{
    rows.iter().all(|row| is_good::<S>(text, *row))
}

// Whether every row's mailbox is one of the 64.
fn all_mailboxes(rows: &[DirectoryRow]) -> bool
    ensures { Decides result (GoodMailboxes rows.now) }
{
    rows.iter().all(|row| row.mailbox < 64)
}

// Whether a text and rows keep the limits and every row is right.
fn judge<S: Spelling>(text: &[u8], rows: &[DirectoryRow]) -> Result<(), Refusal>
    ensures { MatchResult result (λ _. Lawful S.Spelt text.now rows.now) (λ refusal. Refused S.Spelt text.now rows.now (notice refusal)) }
{
    if text.len() > 4096 || rows.len() > 64 {
        return Err(Refusal::Unlawful);
    }
    if !all_good::<S>(text, rows) {
        return Err(Refusal::BadRow);
    }
    if !all_mailboxes(rows) {
        return Err(Refusal::BadRowMailbox);
    }
    Ok(())
}

impl<S: Spelling> Listing<S> {
    // A list over a text and rows; refused, and both handed back, where they break the limits or a row is wrong.
    pub fn new(
        text: Vec<u8>,
        rows: Vec<DirectoryRow>,
    ) -> Result<Listing<S>, Rejected<(Vec<u8>, Vec<DirectoryRow>)>>
        ensures { MatchResult result (λ l. (l.text ≡ text) × (l.rows ≡ rows) × Lawful S.Spelt text.items rows.items) (λ e. (e.given ≡ (text, rows)) × Refused S.Spelt text.items rows.items (notice e.refusal)) }
    {
        match judge::<S>(text.as_slice(), rows.as_slice()) {
            Ok(()) => Ok(Listing {
                text,
                rows,
                spelling: PhantomData,
            }),
            Err(refusal) => Err(Rejected {
                refusal,
                given: (text, rows),
            }),
        }
    }
}

impl<S: Spelling> Directory for Listing<S> {
    ghost told = { λ d. first_fit S.fitting d.text.items d.rows.items };

    ghost below = { λ d local domain. first_below S.fitting d.text.items d.rows.items local domain d.below };

    fn mailbox(&self, local: &[u8], domain: &[u8]) -> Option<usize> {
        self.rows
            .iter()
            .find(|row| S::fits(row.octets(self.text.as_slice()), local, domain))
            .map(|row| row.mailbox)
    }
}
