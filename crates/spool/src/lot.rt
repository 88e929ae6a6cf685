ghost use Rattle.std.specs.Prelude.{◌≡◌, false, is_some, is_ok, Some, None};
ghost use Rattle.std.specs.List.{slice_get};
ghost use Rattle.refusals.specs.Refusals.{told};
ghost use Rattle.spool.specs.Lists.{present};
ghost use Rattle.spool.specs.Lots.{filed_in, part_in};
ghost use Rattle.spool.specs.Rules.{opens};

use crate::entry::Part;
use refusals::refusal::Refusal;

// A lot over entries that lie in filing order: none, or, while it is open, how many of them are held. The others are staged.
#[derive(Clone, Copy)]
pub struct Lot {
    held: Option<usize>,
}

impl Lot {
    // No lot.
    pub fn none() -> Lot
        ensures { result.held ≡ None }
    {
        Lot { held: None }
    }

    // Whether it is open.
    pub fn is_open(&self) -> bool
        ensures { result ≡ is_some self.now.held }
    {
        self.held.is_some()
    }

    // The rows of a part's entries, among those of all.
    pub fn part<'a, R>(&self, rows: &'a [R], part: Part) -> &'a [R]
        ensures { result.now ≡ part_in part self.now rows.now }
    {
        let filed = self.held.unwrap_or(rows.len()).min(rows.len());
        let (held, staged) = rows.split_at(filed);
        match part {
            Part::Held => held,
            Part::Staged => staged,
        }
    }

    // The row of a part's entry, among those of all.
    pub fn entry<R: Copy>(&self, rows: &[R], part: Part, at: usize) -> Result<R, Refusal>
        ensures { told result ≡ present (slice_get (part_in part self.now rows.now) at) }
    {
        self.part(rows, part)
            .get(at)
            .copied()
            .ok_or(Refusal::NoSuchEntry)
    }

    // Starts an empty lot behind so many entries.
    pub fn open(&mut self, entries: usize) -> Result<(), Refusal>
        ensures refused { is_ok result ≡ false → self.new ≡ self.old }
        ensures answer { told result ≡ opens self.old.held }
        ensures after { self.new.held ≡ Some (filed_in self.old entries) }
    {
        if self.is_open() {
            return Err(Refusal::LotOpen);
        }
        self.held = Some(entries);
        Ok(())
    }

    // Ends the lot, and answers how many entries are held without it.
    pub fn end(&mut self) -> Option<usize>
        ensures answer { result ≡ self.old.held }
        ensures after { self.new.held ≡ None }
    {
        self.held.take()
    }
}
