ghost use Rattle.std.specs.Prelude.{◌≡◌, Ok, ◌≢◌};
ghost use Rattle.command.specs.declared.argument.RcptLine.{RcptLine};
ghost use Rattle.command.specs.declared.chunk.Chunk.{Chunk};
ghost use Rattle.judgement.specs.declared.judged.Asked.TheVariants as asks;
ghost use Rattle.judgement.specs.declared.phase.Phase.TheVariants as phases;
ghost use Rattle.session.specs.Places.{Obeyed, Started};
ghost use Rattle.session.specs.Seeking.{Seeks, number_of};
ghost use Rattle.session.specs.Standings.{after_reset};

use crate::hear::{RECORDS, Sheet};
use crate::session::{Mailbox, Mode, Session};
use command::argument::behind_to;
use command::line::argument_of;
use directory::directory::Directory;
use judgement::judged::{Asked, Judged};
use judgement::phase::Phase;
use paths::envelope::{domain_of, local_part_of};
use protocol::line::trimmed;
use protocol::part::DataPart;
use protocol::reply::Reply;

// The directory's answer for the recipient of a line, where it has one.
pub(crate) fn seek<D: Directory>(
    directory: &D,
    name: &[u8],
    text: &[u8],
    judged: Judged,
) -> Option<Mailbox>
    ensures { Seeks (D.Directory.told directory.now) name.now text.now judged (number_of result) }
{
    let Ok(Asked::Rcpt(line)) = judged else {
        return None;
    };
    let route = behind_to(argument_of(trimmed(text)));
    let local = local_part_of(route, line.path);
    let domain = domain_of(route, name, line.path);
    let number = directory.mailbox(local, domain)?;
    Some(Mailbox { number })
}

// The phase after RSET: before a hello it is Fresh still.
fn after_reset(phase: Phase) -> Phase
    ensures { result ≡ after_reset phase }
{
    if phase == Phase::Fresh {
        Phase::Fresh
    } else {
        Phase::Greeted
    }
}

impl Session {
    // Drops the transaction, and goes on in a phase.
    pub(crate) fn start(&mut self, phase: Phase)
        ensures { Started self.old self.new phase }
    {
        self.phase = phase;
        self.recipients.clear();
        self.kept = 0;
    }

    // A recipient for whom the directory told a mailbox, or none.
    fn enrol(&mut self, asked: Option<Mailbox>, sheet: &mut Sheet) -> Reply
        ensures { (line : RcptLine) → Obeyed self.old self.new sheet.old sheet.new (number_of asked) (Ok (asks.Rcpt line)) result }
    {
        if self.recipients.len(sheet) >= RECORDS {
            return Reply::TooManyRecipients;
        }
        let Some(mailbox) = asked else {
            return Reply::NoSuchMailbox;
        };
        let _ = self.recipients.append(sheet, mailbox.number);
        self.phase = Phase::Rcpt;
        Reply::Done
    }

    // Drops the transaction, and answers in another phase.
    fn restart(&mut self, phase: Phase, reply: Reply) -> Reply
        ensures started { Started self.old self.new phase }
        ensures answer { result ≡ reply }
    {
        self.start(phase);
        reply
    }

    // The conversation ends with a reply.
    fn end(&mut self, reply: Reply) -> Reply
        ensures ended { self.new ≡ record self.old { phase = phases.Ended } }
        ensures answer { result ≡ reply }
    {
        self.phase = Phase::Ended;
        reply
    }

    // Does what a command line asks for in this phase. A line that announces a chunk is not obeyed here.
    pub(crate) fn obey(
        &mut self,
        judged: Judged,
        asked: Option<Mailbox>,
        sheet: &mut Sheet,
    ) -> Reply
        requires { (c : Chunk) → judged ≢ Ok (asks.Chunk c) }
        ensures { Obeyed self.old self.new sheet.old sheet.new (number_of asked) judged result }
    {
        match (self.phase, judged) {
            (_, Err(refused)) => {
                if refused.ends {
                    self.end(refused.reply)
                } else {
                    refused.reply
                }
            }
            (_, Ok(Asked::Hello)) => self.restart(Phase::Greeted, Reply::Hello),
            (_, Ok(Asked::Extended)) => self.restart(Phase::Greeted, Reply::Extensions),
            (_, Ok(Asked::Mail)) => self.restart(Phase::Mail, Reply::Done),
            (_, Ok(Asked::Rcpt(_line))) => self.enrol(asked, sheet),
            (_, Ok(Asked::Data)) => {
                self.phase = Phase::Data;
                self.mode = Mode::Data(DataPart::new());
                Reply::GoAhead
            }
            (phase, Ok(Asked::Reset)) => self.restart(after_reset(phase), Reply::Done),
            (_, Ok(Asked::Noop)) => Reply::Done,
            (_, Ok(Asked::Verify)) => Reply::CannotVerify,
            (_, Ok(Asked::Quit)) => self.end(Reply::Closing),
            (_, Ok(Asked::Chunk(_))) => unreachable(),
        }
    }
}
