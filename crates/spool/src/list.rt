ghost use Rattle.std.specs.Prelude.{◌≡◌, ℕ, ◌+◌, ◌-◌, ◌<◌, ◌≤◌, min, true, false, [], ◌∷◌, ◌++◌, length, take, drop, is_ok};
ghost use Rattle.spool.specs.Lists.{appended, appends, placed, present, records as records_of, remaining, removes};
ghost use Rattle.refusals.specs.Refusals.{told};
ghost use Rattle.std.specs.List.{slice_get};

use refusals::refusal::Refusal;

// An ordered list of records of any one kind, at the front of a memory that each call is handed: it holds how many there are.
#[derive(Clone, Copy)]
pub struct OrderedList {
    count: usize,
}

impl OrderedList {
    // A list with no records.
    pub fn new() -> OrderedList
        ensures { result.count ≡ 0 }
    {
        OrderedList { count: 0 }
    }

    // How many records the list has in a memory.
    pub fn len<T: Copy>(&self, memory: &[T]) -> usize
        ensures { result ≡ length (records_of self.now memory.now) }
    {
        self.front(memory).len()
    }

    // The list's records, which lie at the front of a memory.
    fn front<T: Copy>(self, memory: &[T]) -> &[T]
        ensures { result.now ≡ records_of self memory.now }
    {
        &memory[0..self.count.min(memory.len())]
    }

    // The record at a place.
    pub fn get<T: Copy>(&self, memory: &[T], at: usize) -> Result<T, Refusal>
        ensures { told result ≡ present (slice_get (records_of self.now memory.now) at) }
    {
        self.front(memory)
            .get(at)
            .copied()
            .ok_or(Refusal::NoSuchEntry)
    }

    // Adds records at the end.
    pub fn extend<T: Copy>(&mut self, memory: &mut [T], items: &[T]) -> Result<(), Refusal>
        ensures answer { told result ≡ appends (length memory.old) (records_of self.old memory.old) items.now }
        ensures after { records_of self.new memory.new ≡ appended (length memory.old) (records_of self.old memory.old) items.now }
        ensures count { is_ok result ≡ true → self.new.count ≡ length (records_of self.new memory.new) }
        ensures refused { is_ok result ≡ false → (self.new ≡ self.old) × (memory.new ≡ memory.old) }
    {
        let count = self.count.min(memory.len());
        if items.len() > memory.len() - count {
            return Err(Refusal::NoSuchEntry);
        }
        let end = count + items.len();
        memory[count..end].copy_from_slice(items);
        self.count = end;
        Ok(())
    }

    // Adds a record at the end. It is not `extend` by a slice of one, which would need a premise on a
    // record's size.
    pub fn append<T: Copy>(&mut self, memory: &mut [T], item: T) -> Result<(), Refusal>
        ensures answer { told result ≡ appends (length memory.old) (records_of self.old memory.old) (item ∷ []) }
        ensures after { records_of self.new memory.new ≡ appended (length memory.old) (records_of self.old memory.old) (item ∷ []) }
        ensures count { is_ok result ≡ true → self.new.count ≡ length (records_of self.new memory.new) }
        ensures refused { is_ok result ≡ false → (self.new ≡ self.old) × (memory.new ≡ memory.old) }
        ensures memory { memory.new ≡ placed memory.old (records_of self.old memory.old) item }
    {
        let count = self.count.min(memory.len());
        if count >= memory.len() {
            return Err(Refusal::NoSuchEntry);
        }
        memory[count] = item;
        self.count = count + 1;
        Ok(())
    }

    // Takes out `by` records from a place on. Each record behind them moves once.
    pub fn remove_run<T: Copy>(
        &mut self,
        memory: &mut [T],
        at: usize,
        by: usize,
    ) -> Result<(), Refusal>
        ensures answer { told result ≡ removes (records_of self.old memory.old) at by }
        ensures after { records_of self.new memory.new ≡ remaining (records_of self.old memory.old) at by }
        ensures count { is_ok result ≡ true → self.new.count ≡ length (records_of self.new memory.new) }
        ensures refused { is_ok result ≡ false → (self.new ≡ self.old) × (memory.new ≡ memory.old) }
    {
        let count = self.count.min(memory.len());
        if at > count {
            return Err(Refusal::NoSuchEntry);
        }
        if by > count - at {
            return Err(Refusal::NoSuchEntry);
        }
        memory.copy_within(at + by..count, at);
        self.count = count - by;
        Ok(())
    }

    // Takes out the record at a place.
    pub fn remove<T: Copy>(&mut self, memory: &mut [T], at: usize) -> Result<(), Refusal>
        ensures answer { told result ≡ removes (records_of self.old memory.old) at 1 }
        ensures after { records_of self.new memory.new ≡ remaining (records_of self.old memory.old) at 1 }
        ensures count { is_ok result ≡ true → self.new.count ≡ length (records_of self.new memory.new) }
        ensures refused { is_ok result ≡ false → (self.new ≡ self.old) × (memory.new ≡ memory.old) }
    {
        self.remove_run(memory, at, 1)
    }

    // Keeps the records before a place.
    pub fn truncate(&mut self, len: usize)
        ensures { self.new.count ≡ min self.old.count len }
    {
        self.count = self.count.min(len);
    }

    // Drops every record.
    pub fn clear(&mut self)
        ensures { self.new.count ≡ 0 }
    {
        self.count = 0;
    }
}
