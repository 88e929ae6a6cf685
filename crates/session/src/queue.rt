ghost use Rattle.std.specs.Prelude.{◌≡◌, ◌≤◌, min, [], ◌∷◌, length, take, drop};
ghost use Rattle.session.specs.Queues.{first, waits};

use crate::waiting::{MOST, Waiting};
use arrayvec::ArrayVec;
use protocol::reply::Reply;

impl Waiting {
    // No reply waits.
    pub fn new() -> Waiting
        ensures { waits result ≡ [] }
    {
        Waiting {
            replies: [Reply::Done; MOST],
            count: 0,
            sent: 0,
        }
    }

    // One reply waits.
    pub fn one(reply: Reply) -> Waiting
        ensures { waits result ≡ reply ∷ [] }
    {
        Waiting {
            replies: [reply; MOST],
            count: 1,
            sent: 0,
        }
    }

    // The first of some replies wait: so many, as far as there are.
    pub fn of(replies: [Reply; 100], count: usize) -> Waiting
        ensures { waits result ≡ take count replies }
    {
        let count = count.min(MOST);
        Waiting {
            replies,
            count,
            sent: 0,
        }
    }

    // All of some replies wait.
    pub fn all(replies: &ArrayVec<Reply, MOST>) -> Waiting
        ensures { waits result ≡ replies.now.items }
    {
        let told = replies.as_slice();
        let mut rows = [Reply::Done; MOST];
        rows[..told.len()].copy_from_slice(told);
        Waiting::of(rows, told.len())
    }

    // How many replies wait.
    pub fn len(&self) -> usize
        ensures { result ≡ length (waits self.now) }
    {
        self.count - self.sent
    }

    // The reply that is to be written next.
    pub fn next(&self) -> Option<Reply>
        ensures { result ≡ first (waits self.now) }
    {
        if self.sent < self.count {
            Some(self.replies[self.sent])
        } else {
            None
        }
    }

    // The next reply was written.
    pub fn pass(&mut self)
        ensures { waits self.new ≡ drop 1 (waits self.old) }
    {
        if self.sent < self.count {
            self.sent += 1;
        }
    }
}
