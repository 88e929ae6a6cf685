ghost use Rattle.std.specs.Prelude.{◌≡◌, ℕ, true, false, map, length, is_some, is_ok, IfOk};
ghost use Rattle.ends.specs.Ends.{SmtpEnd, begun, starts};
ghost use Rattle.ends.specs.Filing.{entry};
ghost use Rattle.ends.specs.Steps.{Staging};
ghost use Rattle.ends.specs.Ledgers.{counts_of};
ghost use Rattle.refusals.specs.Refusals.{told};

use crate::faults::EndFault;
use crate::ledger::Ledger;
use crate::lot::stage_one;
use crate::message::Message;
use protocol::reply::Reply;
use refusals::refusal::Refusal;
use spool::interface::Spool;
use spool::ticket::{Ticket, commit, open, withdraw};

// Stages an entry for each recipient in turn, up to the first fault.
fn stage_all<S: Spool>(
    spool: &mut S,
    ticket: &Ticket,
    ledger: &Ledger,
    message: &Message<'_>,
) -> Result<(), EndFault>
    requires { is_some (S.Spool.lot spool.old) ≡ true }
    ensures staging { Staging S.Spool (counts_of ledger.now) spool.old spool.new (map (entry message.now.payload.now) message.now.recipients.now) result }
    ensures floor { S.Spool.floor spool.new ≡ S.Spool.floor spool.old }
{
    for r in message.recipients {
        if ledger.is_full(*r) {
            return Err(EndFault::Ledger);
        }
        stage_one(spool, ticket, *r, message.payload)?;
    }
    Ok(())
}

// Ends an SMTP message: one lot and one reply for all recipients.
pub fn smtp_end<S: Spool>(
    spool: &mut S,
    ledger: &mut Ledger,
    message: &Message<'_>,
) -> Result<Reply, Refusal>
    ensures answer { begun (told result) ≡ starts (length message.now.recipients.now) (S.Spool.lot spool.old) }
    ensures refused { is_ok result ≡ false → (spool.new ≡ spool.old) × (ledger.new ≡ ledger.old) }
    ensures end { IfOk result (SmtpEnd S.Spool ledger.old ledger.new spool.old spool.new (map (entry message.now.payload.now) message.now.recipients.now)) }
    ensures floor { S.Spool.floor spool.new ≡ S.Spool.floor spool.old }
{
    if message.recipients.len() > 100 {
        return Err(Refusal::BadSheet);
    }
    let ticket = open(spool)?;
    match stage_all(spool, &ticket, ledger, message) {
        Ok(()) => {
            let _ = commit(spool, ticket);
            ledger.note_all(message.recipients);
            Ok(Reply::Done)
        }
        Err(fault) => {
            let _ = withdraw(spool, ticket);
            Ok(Reply::from(fault))
        }
    }
}
