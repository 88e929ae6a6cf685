ghost use Rattle.judgement.specs.declared.phase.Kind.TheVariants as kinds;
ghost use Rattle.receiver.specs.Ending.{Ended, Settled};
ghost use Rattle.receiver.specs.Settling.{too_large};
ghost use Rattle.session.specs.Places.{mailboxes};
ghost use Rattle.session.specs.Queues.{waits};
ghost use Rattle.session.specs.Turns.{ends};
ghost use Rattle.std.specs.Option.{option_map};
ghost use Rattle.std.specs.Prelude.{◌≡◌, ◌≤◌, length, take, None};

use ends::ledger::Ledger;
use ends::lmtp::lmtp_end;
use ends::message::Message;
use ends::smtp::smtp_end;
use judgement::phase::Kind;
use protocol::reply::Reply;
use session::waiting::Waiting;
use spool::interface::Spool;

// Ends a message in SMTP: one reply.
fn end_smtp<S: Spool>(spool: &mut S, ledger: &mut Ledger, message: &Message<'_>) -> Waiting
    requires few { length message.now.recipients.now ≤ 100 }
    requires idle { S.Spool.lot spool.old ≡ None }
    ensures { Ended S.Spool kinds.Smtp ledger.old ledger.new spool.old spool.new message.now.recipients.now message.now.payload.now result }
{
    match smtp_end(spool, ledger, message) {
        Ok(reply) => Waiting::one(reply),
        Err(_) => unreachable(),
    }
}

// Ends a message in LMTP: a reply for each recipient, where SMTP has one for all.
fn end_lmtp<S: Spool>(spool: &mut S, ledger: &mut Ledger, message: &Message<'_>) -> Waiting
    requires few { length message.now.recipients.now ≤ 100 }
    requires idle { S.Spool.lot spool.old ≡ None }
    ensures { Ended S.Spool kinds.Lmtp ledger.old ledger.new spool.old spool.new message.now.recipients.now message.now.payload.now result }
{
    match lmtp_end(spool, ledger, message) {
        Ok(replies) => Waiting::all(&replies),
        Err(_) => unreachable(),
    }
}

// A message too large is answered once in SMTP, and once for each recipient in LMTP.
fn too_large(kind: Kind, recipients: &[usize]) -> Waiting
    requires { length recipients.now ≤ 100 }
    ensures { waits result ≡ too_large kind (mailboxes recipients.now) }
{
    match kind {
        Kind::Smtp => Waiting::one(Reply::TooLarge),
        Kind::Lmtp => Waiting::of([Reply::TooLarge; 100], recipients.len()),
    }
}

// Carries out the end of a message: its recipients, and its payload as so many octets of the area, or none where it was too large.
pub(crate) fn settle<S: Spool>(
    kind: Kind,
    spool: &mut S,
    ledger: &mut Ledger,
    recipients: &[usize],
    area: &[u8],
    payload: Option<usize>,
) -> Waiting
    requires few { length recipients.now ≤ 100 }
    requires idle { S.Spool.lot spool.old ≡ None }
    ensures { Settled S.Spool kind ledger.old ledger.new spool.old spool.new (ends (mailboxes recipients.now) (option_map (λ n. take n area.now) payload)) result }
{
    match payload {
        Some(count) => {
            let payload = &area[0..count.min(area.len())];
            let message = Message {
                recipients,
                payload,
            };
            match kind {
                Kind::Smtp => end_smtp(spool, ledger, &message),
                Kind::Lmtp => end_lmtp(spool, ledger, &message),
            }
        }
        None => too_large(kind, recipients),
    }
}
