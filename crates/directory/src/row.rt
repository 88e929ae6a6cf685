ghost use Rattle.directory.specs.Rows.{octets_of};
ghost use Rattle.std.specs.Prelude.{◌≡◌};

// A row of a directory: the octets of its text from `offset` on, `length` of them, and the mailbox that they stand for.
#[derive(Clone, Copy, PartialEq, Eq, Debug)]
pub struct DirectoryRow {
    pub offset: usize,
    pub length: usize,
    pub mailbox: usize,
}

impl DirectoryRow {
    // The octets of a text that the row stands for, as far as there are any.
    pub(crate) fn octets(self, text: &[u8]) -> &[u8]
        ensures { result.now ≡ octets_of text.now self }
    {
        let rest = text.get(self.offset..).unwrap_or_default();
        &rest[..self.length.min(rest.len())]
    }
}
