ghost use Rattle.std.specs.Prelude.{◌≡◌, ℕ, ◌+◌, ◌%◌, ◌≤◌, true, false, map, length, is_ok, IfOk, None};
ghost use Rattle.ends.specs.Ends.{EachFiled, begun, starts};
ghost use Rattle.ends.specs.Filing.{Answered, entry, kept};
ghost use Rattle.ends.specs.Steps.{Alone};
ghost use Rattle.ends.specs.Ledgers.{Counted, counts_of};
ghost use Rattle.refusals.specs.Refusals.{told};

use crate::faults::EndFault;
use crate::ledger::Ledger;
use crate::lot::file_one;
use crate::message::Message;
use arrayvec::ArrayVec;
use protocol::reply::Reply;
use refusals::refusal::Refusal;
use spool::interface::Spool;

// Files a recipient's entry, unless its mailbox has been filed too many.
fn try_one<S: Spool>(
    spool: &mut S,
    before: &Ledger,
    recipient: usize,
    payload: &[u8],
) -> Result<(), EndFault>
    requires { S.Spool.lot spool.old ≡ None }
    ensures alone { Alone S.Spool (counts_of before.now) spool.old spool.new (entry payload.now recipient) result }
    ensures floor { S.Spool.floor spool.new ≡ S.Spool.floor spool.old }
{
    if before.is_full(recipient) {
        return Err(EndFault::Ledger);
    }
    file_one(spool, recipient, payload)?;
    Ok(())
}

// Answers a recipient, and counts its entry where it is filed. `before` is the ledger as it was before this end.
fn answer_one<S: Spool>(
    spool: &mut S,
    before: &Ledger,
    ledger: &mut Ledger,
    recipient: usize,
    payload: &[u8],
) -> Reply
    requires idle { S.Spool.lot spool.old ≡ None }
    requires fits { counts_of ledger.old (recipient % 64) ≤ counts_of before.now (recipient % 64) + 100 }
    ensures answered { Answered S.Spool (counts_of before.now) spool.old (entry payload.now recipient) result spool.new }
    ensures counted { Counted ledger.old ledger.new (kept (entry payload.now recipient) result) }
    ensures floor { S.Spool.floor spool.new ≡ S.Spool.floor spool.old }
{
    match try_one(spool, before, recipient, payload) {
        Ok(()) => {
            ledger.note_filed(recipient);
            Reply::Done
        }
        Err(fault) => Reply::from(fault),
    }
}

// Answers each recipient in turn.
fn answer_all<S: Spool>(
    spool: &mut S,
    ledger: &mut Ledger,
    message: &Message<'_>,
) -> ArrayVec<Reply, 100>
    requires few { length message.now.recipients.now ≤ 100 }
    requires idle { S.Spool.lot spool.old ≡ None }
    ensures each { EachFiled S.Spool ledger.old ledger.new spool.old spool.new (map (entry message.now.payload.now) message.now.recipients.now) result.items }
    ensures floor { S.Spool.floor spool.new ≡ S.Spool.floor spool.old }
{
    let before = *ledger;
    let mut replies = ArrayVec::new();
    for r in message.recipients {
        replies.push(answer_one(spool, &before, ledger, *r, message.payload));
    }
    replies
}

// Ends an LMTP message: a lot and a reply for each recipient.
pub fn lmtp_end<S: Spool>(
    spool: &mut S,
    ledger: &mut Ledger,
    message: &Message<'_>,
) -> Result<ArrayVec<Reply, 100>, Refusal>
    ensures answer { begun (told result) ≡ starts (length message.now.recipients.now) (S.Spool.lot spool.old) }
    ensures refused { is_ok result ≡ false → (spool.new ≡ spool.old) × (ledger.new ≡ ledger.old) }
    ensures each { IfOk result (λ replies. EachFiled S.Spool ledger.old ledger.new spool.old spool.new (map (entry message.now.payload.now) message.now.recipients.now) replies.items) }
    ensures floor { S.Spool.floor spool.new ≡ S.Spool.floor spool.old }
{
    if message.recipients.len() > 100 {
        return Err(Refusal::BadSheet);
    }
    if spool.lot_is_open() {
        return Err(Refusal::LotOpen);
    }
    Ok(answer_all(spool, ledger, message))
}
