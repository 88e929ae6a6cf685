ghost use Rattle.std.specs.Prelude.{◌≡◌, ◌≤◌, ◌++◌, length};
ghost use Rattle.protocol.specs.Outputs.{behind, put};
ghost use Rattle.protocol.specs.Replies.{lead_of, octets_of};

use itoa::Buffer;
use refusals::refusal::RoomFault;

// Every reply of the receiver. A fixed vector of replies has `Done` in its free places.
#[derive(Clone, Copy, PartialEq, Eq, Debug, Default)]
pub enum Reply {
    Greeting,
    Closing,
    Hello,
    Extensions,
    #[default]
    Done,
    CannotVerify,
    GoAhead,
    TooManyRecipients,
    LedgerFull,
    NoRoom(RoomFault),
    UnknownCommand,
    BadPath(u8),
    BadArgument,
    OutOfOrder,
    NoSuchMailbox,
    TooLarge,
    UnknownParameter,
}

impl Reply {
    // Puts the reply of a receiver with a name and areas of a size into the output from a place on, and answers the place
    // behind it; nothing is put where it does not fit.
    pub fn write(self, name: &[u8], size: usize, output: &mut [u8], at: usize) -> Option<usize>
        ensures answer { result ≡ behind output.old at (octets_of name.now size self) }
        ensures after { output.new ≡ put output.old at (octets_of name.now size self) }
        ensures short { length name.now ≤ 40 → size ≤ 65536 → length (octets_of name.now size self) ≤ 256 }
    {
        let lead = self.lead();
        let mut first = Buffer::new();
        let mut second = Buffer::new();
        match self {
            Reply::Greeting | Reply::Closing | Reply::Hello => {
                put_parts(output, at, lead, name, b"\r\n", b"", b"")
            }
            Reply::Extensions => {
                let digits = first.format(size).as_bytes();
                let tail = b"\r\n250-PIPELINING\r\n250 CHUNKING\r\n";
                put_parts(output, at, lead, name, b"\r\n250-SIZE ", digits, tail)
            }
            Reply::NoRoom(fault) => {
                let layer = first.format(fault.layer).as_bytes();
                let cause = second.format(u8::from(fault.cause)).as_bytes();
                put_parts(output, at, lead, layer, b".", cause, b"\r\n")
            }
            Reply::BadPath(fault) => {
                let number = first.format(fault).as_bytes();
                put_parts(output, at, lead, number, b"\r\n", b"", b"")
            }
            _ => put_parts(output, at, lead, b"\r\n", b"", b"", b""),
        }
    }

    // The reply up to its name or its values.
    fn lead(self) -> &'static [u8]
        ensures { result.now ≡ lead_of self }
    {
        match self {
            Reply::Greeting => b"220 ",
            Reply::Closing => b"221 ",
            Reply::Hello => b"250 ",
            Reply::Extensions => b"250-",
            Reply::Done => b"250 OK",
            Reply::CannotVerify => b"252 Cannot verify",
            Reply::GoAhead => b"354 Go ahead",
            Reply::TooManyRecipients => b"452 Too many recipients",
            Reply::LedgerFull => b"452 Ledger full",
            Reply::NoRoom(_) => b"452 No room ",
            Reply::UnknownCommand => b"500 Unknown command",
            Reply::BadPath(_) => b"501 Bad path ",
            Reply::BadArgument => b"501 Bad argument",
            Reply::OutOfOrder => b"503 Out of order",
            Reply::NoSuchMailbox => b"550 No such mailbox",
            Reply::TooLarge => b"552 Message too large",
            Reply::UnknownParameter => b"555 Unknown parameter",
        }
    }
}

// Puts five parts one behind another, if there is room for all of them. They are handed one by one: a slice of lent slices that the
// caller makes gets no proof.
fn put_parts<'a>(
    output: &mut [u8],
    at: usize,
    lead: &'a [u8],
    first: &'a [u8],
    between: &'a [u8],
    second: &'a [u8],
    tail: &'a [u8],
) -> Option<usize>
    ensures answer { result ≡ behind output.old at (lead.now ++ first.now ++ between.now ++ second.now ++ tail.now) }
    ensures after { output.new ≡ put output.old at (lead.now ++ first.now ++ between.now ++ second.now ++ tail.now) }
{
    let parts = [lead, first, between, second, tail];
    let mut room = output.len().checked_sub(at)?;
    for part in &parts {
        room = room.checked_sub(part.len())?;
    }
    let mut end = at;
    for part in &parts {
        let start = end;
        end += part.len();
        output[start..end].copy_from_slice(part);
    }
    Some(end)
}
