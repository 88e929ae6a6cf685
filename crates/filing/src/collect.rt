ghost use Rattle.filing.specs.Collecting.{EarliestAt, collects, earliest, in_front, without};
ghost use Rattle.refusals.specs.Refusals.{told};
ghost use Rattle.std.specs.Prelude.{◌≡◌, true, false, length, is_ok, None, MatchOption};

use refusals::refusal::Refusal;
use spool::entry::{Part, Summary};
use spool::interface::Spool;

// The place and the summary of the earliest held entry of a mailbox.
fn find<S: Spool>(spool: &S, mailbox: usize) -> Option<(usize, Summary)>
    ensures { MatchOption result (earliest mailbox (S.Spool.held spool.now) ≡ None) (λ f. EarliestAt mailbox (S.Spool.held spool.now) f.0 f.1.length) }
{
    // A spool has places and no slice; a chain over them would pass a refused place over, which the loop shows there is not.
    for at in 0..spool.count(Part::Held) {
        let Ok(summary) = spool.entry(Part::Held, at) else {
            unreachable();
        };
        if summary.mailbox == mailbox {
            return Some((at, summary));
        }
    }
    None
}

// Copies the payload of a mailbox's earliest held entry to the front of a buffer, takes the entry out, and answers the length.
pub fn collect<S: Spool>(spool: &mut S, mailbox: usize, buffer: &mut [u8]) -> Result<usize, Refusal>
    ensures answer { told result ≡ collects mailbox (S.Spool.lot spool.old) (S.Spool.held spool.old) (length buffer.old) }
    ensures refused { is_ok result ≡ false → (spool.new ≡ spool.old) × (buffer.new ≡ buffer.old) }
    ensures held { is_ok result ≡ true → S.Spool.held spool.new ≡ without mailbox (S.Spool.held spool.old) }
    ensures buffer { is_ok result ≡ true → buffer.new ≡ in_front (earliest mailbox (S.Spool.held spool.old)) buffer.old }
    ensures lot { S.Spool.lot spool.new ≡ S.Spool.lot spool.old }
    ensures floor { S.Spool.floor spool.new ≡ S.Spool.floor spool.old }
{
    if mailbox > 63 {
        return Err(Refusal::NoSuchMailbox);
    }
    let (at, summary) = find(spool, mailbox).ok_or(Refusal::NothingHeld)?;
    if summary.length > buffer.len() {
        return Err(Refusal::ShortBuffer);
    }
    if spool.lot_is_open() {
        return Err(Refusal::LotOpen);
    }
    let _ = spool.copy(at, buffer);
    let _ = spool.remove(at);
    Ok(summary.length)
}
