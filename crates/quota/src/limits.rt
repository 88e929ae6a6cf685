ghost use Rattle.std.specs.Prelude.{◌≤◌};

// What one mailbox may have: 1 to 1,000 entries, and 512 to 65,536 octets in all of them.
#[derive(Clone, Copy)]
pub(crate) struct Limits {
    pub(crate) entries: usize,
    pub(crate) octets: usize,
    ghost some_entries: { 1 ≤ entries },
    ghost few_entries: { entries ≤ 1000 },
    ghost some_octets: { 512 ≤ octets },
    ghost few_octets: { octets ≤ 65536 },
}
