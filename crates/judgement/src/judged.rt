ghost use Rattle.judgement.specs.Judgements.{refusal};
ghost use Rattle.std.specs.Prelude.{◌≡◌};

use command::argument::RcptLine;
use command::chunk::Chunk;
use protocol::reply::Reply;

// What a line asks for.
#[derive(Clone, Copy, PartialEq, Eq, Debug)]
pub enum Asked {
    Hello,
    Extended,
    Mail,
    Rcpt(RcptLine),
    Data,
    Chunk(Chunk),
    Reset,
    Noop,
    Verify,
    Quit,
}

// A line is refused with a reply, whereupon the session may end.
#[derive(Clone, Copy, PartialEq, Eq, Debug)]
pub struct Refused {
    pub reply: Reply,
    pub ends: bool,
}

// A reply alone does not end the session.
impl From<Reply> for Refused {
    ghost from_gives = { λ reply refused. refused ≡ refusal reply };

    fn from(reply: Reply) -> Refused {
        Refused { reply, ends: false }
    }
}

// What a line is judged to be.
pub type Judged = Result<Asked, Refused>;
