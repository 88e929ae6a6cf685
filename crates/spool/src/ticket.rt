ghost use Rattle.std.specs.Prelude.{◌≡◌, ℕ, true, false, ◌++◌, length, is_some, is_ok, None, MatchResult};
ghost use Rattle.refusals.specs.Refusals.{plain, told, notice};
ghost use Rattle.spool.specs.Rules.{extended, opened, staged, stages};

use crate::interface::Spool;
use refusals::refusal::Refusal;

// The right to end the lot that was opened with it. It can only be had by opening a lot, and has to be spent: it is neither
// `Copy` nor `Drop`, and its one field is private.
pub struct Ticket {
    seal: (),
}

// Starts an empty lot.
pub fn open<S: Spool>(spool: &mut S) -> Result<Ticket, Refusal>
    ensures refused { is_ok result ≡ false → spool.new ≡ spool.old }
    ensures answer { MatchResult result (λ _. S.Spool.lot spool.old ≡ None) (λ e. (notice e ≡ plain 10) × (is_some (S.Spool.lot spool.old) ≡ true)) }
    ensures held { S.Spool.held spool.new ≡ S.Spool.held spool.old }
    ensures lot { S.Spool.lot spool.new ≡ opened (S.Spool.lot spool.old) }
    ensures floor { S.Spool.floor spool.new ≡ S.Spool.floor spool.old }
{
    spool.open_lot()?;
    Ok(Ticket { seal: () })
}

// Adds an entry to the lot.
pub fn stage<S: Spool>(
    spool: &mut S,
    _ticket: &Ticket,
    mailbox: usize,
    payload: &[u8],
) -> Result<(), Refusal>
    ensures refused { is_ok result ≡ false → spool.new ≡ spool.old }
    ensures answer { told result ≡ stages mailbox (S.Spool.lot spool.old) (S.Spool.room spool.old mailbox (length payload.now)) }
    ensures held { S.Spool.held spool.new ≡ S.Spool.held spool.old }
    ensures lot { S.Spool.lot spool.new ≡ extended (S.Spool.lot spool.old) (S.Spool.room spool.old mailbox (length payload.now)) (record { mailbox = mailbox; payload = payload.now }) }
    ensures floor { S.Spool.floor spool.new ≡ S.Spool.floor spool.old }
{
    spool.stage(mailbox, payload)
}

// Files what is staged, and ends the lot.
pub fn commit<S: Spool>(spool: &mut S, ticket: Ticket) -> usize
    ensures idle { S.Spool.lot spool.old ≡ None → spool.new ≡ spool.old }
    ensures answer { result ≡ length (staged (S.Spool.lot spool.old)) }
    ensures held { S.Spool.held spool.new ≡ S.Spool.held spool.old ++ staged (S.Spool.lot spool.old) }
    ensures lot { S.Spool.lot spool.new ≡ None }
    ensures floor { S.Spool.floor spool.new ≡ S.Spool.floor spool.old }
{
    let Ticket { seal: _ } = ticket;
    spool.commit()
}

// Ends the lot without what is staged. It is a call of its own beside `commit`, so that each end reads as what it does.
pub fn withdraw<S: Spool>(spool: &mut S, ticket: Ticket) -> usize
    ensures idle { S.Spool.lot spool.old ≡ None → spool.new ≡ spool.old }
    ensures answer { result ≡ length (staged (S.Spool.lot spool.old)) }
    ensures held { S.Spool.held spool.new ≡ S.Spool.held spool.old }
    ensures lot { S.Spool.lot spool.new ≡ None }
    ensures floor { S.Spool.floor spool.new ≡ S.Spool.floor spool.old }
{
    let Ticket { seal: _ } = ticket;
    spool.withdraw()
}
