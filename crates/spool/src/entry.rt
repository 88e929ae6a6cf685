// The two parts of a spool that have entries: what is held, and what is staged in the lot.
#[derive(Clone, Copy, PartialEq, Eq, Debug)]
pub enum Part {
    Held,
    Staged,
}

// What a spool tells of an entry: the mailbox that it is for, and how many octets its payload has.
#[derive(Clone, Copy, PartialEq, Eq, Debug)]
pub struct Summary {
    pub mailbox: usize,
    pub length: usize,
}
