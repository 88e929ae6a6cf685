ghost use Rattle.std.specs.Prelude.{◌≡◌, ℕ};
ghost use Rattle.filing.specs.Lots.{Files};

use refusals::refusal::Refusal;
use spool::interface::Spool;
use spool::ticket::{commit, open, stage, withdraw};

// Files one entry in a lot of its own.
pub fn file<S: Spool>(spool: &mut S, mailbox: usize, payload: &[u8]) -> Result<(), Refusal>
    ensures files { Files S.Spool spool.old spool.new (record { mailbox = mailbox; payload = payload.now }) result }
    ensures floor { S.Spool.floor spool.new ≡ S.Spool.floor spool.old }
{
    if mailbox > 63 {
        return Err(Refusal::NoSuchMailbox);
    }
    let ticket = open(spool)?;
    // The lot is ended on both ways before the answer.
    match stage(spool, &ticket, mailbox, payload) {
        Ok(()) => {
            let _ = commit(spool, ticket);
            Ok(())
        }
        Err(refusal) => {
            let _ = withdraw(spool, ticket);
            Err(refusal)
        }
    }
}
