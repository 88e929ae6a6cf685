ghost use Rattle.std.specs.Prelude.{◌≡◌, ◌+◌, ◌≤◌};
ghost use Rattle.quota.specs.Shares.{entries_of, octets_of};
ghost use Rattle.spool.specs.Rules.{part_of};

use spool::entry::Part;
use spool::interface::Spool;

// What a mailbox has: how many entries, and how many octets in all of them.
#[derive(Clone, Copy)]
pub(crate) struct Share {
    pub(crate) entries: usize,
    pub(crate) octets: usize,
}

impl Share {
    // The share with what the mailbox has in a part of a spool.
    pub(crate) fn with_part<S: Spool>(mut self, below: &S, part: Part, mailbox: usize) -> Share
        requires entries { self.entries + entries_of mailbox (part_of part (S.Spool.held below.now) (S.Spool.lot below.now)) ≤ 1000 }
        requires octets { self.octets + octets_of mailbox (part_of part (S.Spool.held below.now) (S.Spool.lot below.now)) ≤ 65536 }
        ensures entries { result.entries ≡ self.entries + entries_of mailbox (part_of part (S.Spool.held below.now) (S.Spool.lot below.now)) }
        ensures octets { result.octets ≡ self.octets + octets_of mailbox (part_of part (S.Spool.held below.now) (S.Spool.lot below.now)) }
    {
        // A spool has places and no slice; a chain over them would pass a refused place over, which the loop shows there is not.
        for at in 0..below.count(part) {
            let Ok(summary) = below.entry(part, at) else {
                unreachable();
            };
            if summary.mailbox == mailbox {
                self.entries += 1;
                self.octets += summary.length;
            }
        }
        self
    }
}
