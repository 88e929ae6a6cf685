ghost use Rattle.std.specs.Prelude.{◌≡◌, ◌≤◌, length};

use protocol::reply::Reply;

// The most replies that can wait: one for each recipient of a message.
pub const MOST: usize = 100;

// The replies of one turn that wait to be written, in order: those of the first `count` that were not sent yet. A fixed vector would
// move what is left at each reply, and can't be copied.
#[derive(Clone, Copy)]
pub struct Waiting {
    pub(crate) replies: [Reply; MOST],
    pub(crate) count: usize,
    pub(crate) sent: usize,
    ghost whole: { length replies ≡ 100 },
    ghost few: { count ≤ 100 },
    ghost some: { sent ≤ count },
}
