ghost use Rattle.std.specs.Prelude.{◌≡◌, ℕ, ◌%◌, ◌<◌, ◌≤◌, [], ◌∷◌, map, length, replicate, nat_lt};
ghost use Rattle.ends.specs.Filing.{entry};
ghost use Rattle.ends.specs.Steps.{Admits};
ghost use Rattle.ends.specs.Ledgers.{Collected, Counted, after_collection, counts_of, most, tells_counts};
ghost use Rattle.refusals.specs.Refusals.{told};

use refusals::refusal::Refusal;

// A mailbox that has been filed more than this is filed no more.
const MOST_FILED: u32 = 999_999_899;

// Past this, collections are no more counted.
const MOST_COLLECTED: u32 = 999_999_999;

// How many entries were filed for a mailbox, and how many were collected.
#[derive(Clone, Copy, PartialEq, Eq, Debug)]
pub struct Counts {
    pub filed: u32,
    pub collected: u32,
}

// The counts of each mailbox.
#[derive(Clone, Copy)]
pub struct Ledger {
    counts: [Counts; 64],
}

impl Ledger {
    pub fn new() -> Ledger
        ensures { result.counts ≡ replicate 64 (record { filed = 0; collected = 0 }) }
    {
        let none = Counts {
            filed: 0,
            collected: 0,
        };
        Ledger { counts: [none; 64] }
    }

    // What was counted for a mailbox.
    pub fn counts(&self, mailbox: usize) -> Result<Counts, Refusal>
        ensures { told result ≡ tells_counts self.now mailbox }
    {
        self.counts
            .get(mailbox)
            .copied()
            .ok_or(Refusal::NoSuchMailbox)
    }

    // Counts an entry as collected.
    pub fn note_collected(&mut self, mailbox: usize)
        ensures after { self.new ≡ after_collection self.old mailbox }
        ensures counts { Collected self.old self.new mailbox }
    {
        if mailbox > 63 {
            return;
        }
        let collected = self.counts[mailbox].collected;
        self.counts[mailbox].collected = collected.min(MOST_COLLECTED - 1) + 1;
    }

    // Whether a recipient's mailbox has been filed too many to be filed more.
    pub(crate) fn is_full(&self, recipient: usize) -> bool
        ensures { result ≡ nat_lt most (counts_of self.now (recipient % 64)) }
    {
        self.counts[recipient % 64].filed > MOST_FILED
    }

    // Counts an entry as filed for a recipient.
    pub(crate) fn note_filed(&mut self, recipient: usize)
        requires { counts_of self.old (recipient % 64) < 4294967295 }
        ensures { Counted self.old self.new (entry [] recipient ∷ []) }
    {
        self.counts[recipient % 64].filed += 1;
    }

    // Counts an entry as filed for each recipient.
    pub(crate) fn note_all(&mut self, recipients: &[usize])
        requires few { length recipients.now ≤ 100 }
        requires admits { Admits (counts_of self.old) recipients.now }
        ensures { Counted self.old self.new (map (entry []) recipients.now) }
    {
        for r in recipients {
            self.note_filed(*r);
        }
    }
}
