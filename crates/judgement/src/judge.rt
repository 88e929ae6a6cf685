ghost use Rattle.command.specs.Faults.{verdict};
ghost use Rattle.judgement.specs.Judgements.{Argued, BadChunk, First, FromThird, JudgedAs, Received, Sent, Wants, bad_chunk, refusal, reply_to};
ghost use Rattle.protocol.specs.Replies.{code_of, values_of};
ghost use Rattle.std.specs.Prelude.{◌≡◌, true, Err};

use crate::judged::{Asked, Judged, Refused};
use crate::phase::{Kind, Phase, heard, is_known};
use address::parts::is_domain;
use command::argument::{read_mail, read_rcpt};
use command::chunk::read_chunk;
use command::fault::LineFault;
use command::line::{argument_of, is_printable, verb_of};
use command::verb::Verb;
use protocol::line::trimmed;
use protocol::reply::Reply;

// The reply to a fault of an argument: it has the fault's code and values. A function, since neither type is this crate's.
pub fn reply_to(fault: LineFault) -> Reply
    ensures answer { result ≡ reply_to fault }
    ensures code { code_of result ≡ (verdict fault).code }
    ensures values { values_of result ≡ (verdict fault).values }
{
    match fault {
        LineFault::BadPath(f) => Reply::BadPath(u8::from(f)),
        LineFault::BadArgument => Reply::BadArgument,
        LineFault::UnknownParameter => Reply::UnknownParameter,
    }
}

// A faulty argument is refused with the reply to its fault.
impl From<LineFault> for Refused {
    ghost from_gives = { λ fault refused. refused ≡ refusal (reply_to fault) };

    fn from(fault: LineFault) -> Refused {
        Refused::from(reply_to(fault))
    }
}

// What a line asks for where its argument is as it has to be.
fn wants(holds: bool, asked: Asked) -> Judged
    ensures { Wants (holds ≡ true) asked result }
{
    if !holds {
        return Err(Refused::from(Reply::BadArgument));
    }
    Ok(asked)
}

// The argument of MAIL.
fn judge_mail(argument: &[u8], area: usize) -> Judged
    ensures { Sent area argument.now result }
{
    let line = read_mail(argument)?;
    if line.size.is_some_and(|size| size > area) {
        return Err(Refused::from(Reply::TooLarge));
    }
    Ok(Asked::Mail)
}

// The argument of RCPT.
fn judge_rcpt(argument: &[u8]) -> Judged
    ensures { Received argument.now result }
{
    let line = read_rcpt(argument)?;
    Ok(Asked::Rcpt(line))
}

// The argument of a verb that is heard.
fn judge_argument(verb: Verb, argument: &[u8], area: usize) -> Judged
    ensures { First (BadChunk verb argument.now) (result ≡ Err bad_chunk) (Argued area verb argument.now result) }
{
    match verb {
        Verb::Helo => wants(is_domain(argument), Asked::Hello),
        Verb::Ehlo | Verb::Lhlo => wants(is_domain(argument), Asked::Extended),
        Verb::Mail => judge_mail(argument, area),
        Verb::Rcpt => judge_rcpt(argument),
        Verb::Data => wants(argument.is_empty(), Asked::Data),
        Verb::Bdat => match read_chunk(argument) {
            Some(chunk) => Ok(Asked::Chunk(chunk)),
            None => Err(Refused {
                reply: Reply::BadArgument,
                ends: true,
            }),
        },
        Verb::Rset => wants(argument.is_empty(), Asked::Reset),
        Verb::Noop => Ok(Asked::Noop),
        Verb::Vrfy => wants(!argument.is_empty(), Asked::Verify),
        Verb::Quit => wants(argument.is_empty(), Asked::Quit),
    }
}

// A readable line whose verb the session's protocol has.
fn judge_known(phase: Phase, verb: Verb, argument: &[u8], area: usize) -> Judged
    ensures { FromThird phase area verb argument.now result }
{
    if !heard(phase, Some(verb)) {
        return Err(Refused::from(Reply::OutOfOrder));
    }
    judge_argument(verb, argument, area)
}

// What a line is: the first ground that holds decides.
pub fn judge(kind: Kind, phase: Phase, text: &[u8], long: bool, area: usize) -> Judged
    ensures { JudgedAs (record { kind = kind; phase = phase; area = area; octets = text.now; long = long }) result }
{
    let line = trimmed(text);
    let verb = verb_of(line);
    let argument = argument_of(line);
    if long || !is_printable(line) {
        return Err(Refused {
            reply: Reply::UnknownCommand,
            ends: verb == Some(Verb::Bdat),
        });
    }
    match verb {
        Some(verb) if is_known(kind, Some(verb)) => judge_known(phase, verb, argument, area),
        _ => Err(Refused::from(Reply::UnknownCommand)),
    }
}
