ghost use Rattle.std.specs.Prelude.{◌<◌};

use command::chunk::Chunk;
use judgement::phase::{Kind, Phase};
use protocol::line::LineBuffer;
use protocol::part::DataPart;
use protocol::reply::Reply;
use spool::list::OrderedList;

// A mailbox that the directory told.
#[derive(Clone, Copy)]
pub(crate) struct Mailbox {
    pub(crate) number: usize,
    ghost below: { number < 64 },
}

// A chunk that is coming in: what its line announced, how many of its octets came, and whether they join the payload.
#[derive(Clone, Copy)]
pub struct ChunkPart {
    pub(crate) chunk: Chunk,
    pub(crate) got: usize,
    pub(crate) joins: bool,
    ghost more: { got < chunk.size },
}

// What the next octets are: of a command line, of a chunk or of a data part.
#[derive(Clone, Copy)]
pub enum Mode {
    Line,
    Chunk(ChunkPart),
    Data(DataPart),
}

// One panel's conversation. The recipients lie in the sheet and the payload in the area, both from the front.
#[derive(Clone, Copy)]
pub struct Session {
    pub(crate) kind: Kind,
    pub(crate) phase: Phase,
    pub(crate) mode: Mode,
    pub(crate) line: LineBuffer,
    pub(crate) recipients: OrderedList,
    pub(crate) kept: usize,
}

// What some octets came to: a turn goes on, was answered, or ended a message, whose recipients are so many records of the sheet
// and whose payload is so many octets of the area, or none where it was too large.
#[derive(Clone, Copy)]
pub enum Event {
    More,
    Answered(Reply),
    MessageEnd {
        recipients: usize,
        payload: Option<usize>,
    },
}

// What a session did with some octets: how many it took, and what they came to.
#[derive(Clone, Copy)]
pub struct Heard {
    pub taken: usize,
    pub event: Event,
}
