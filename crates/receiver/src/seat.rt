ghost use Rattle.std.specs.Prelude.{◌≤◌, length};

use judgement::phase::Kind;
use session::session::Session;
use session::waiting::Waiting;

// A session's place in the receiver: its protocol, the length of its area, its conversation and the replies that wait.
#[derive(Clone, Copy)]
pub struct Seat {
    pub(crate) kind: Kind,
    pub(crate) size: usize,
    pub(crate) session: Session,
    pub(crate) waiting: Waiting,
}

// What every conversation goes by: the directory, and the receiver's own name.
#[derive(Drop)]
pub(crate) struct Host<'a, D> {
    pub(crate) directory: &'a D,
    pub(crate) name: &'a [u8],
    ghost short: { length name.now ≤ 40 },
}

// What a feed did: how many octets it took and wrote, and how many replies wait.
#[derive(Clone, Copy)]
pub struct Fed {
    pub taken: usize,
    pub written: usize,
    pub waiting: usize,
}
