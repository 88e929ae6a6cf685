ghost use Rattle.ends.specs.Filing.{entry};
ghost use Rattle.ends.specs.Steps.{OneLot, Tried};
ghost use Rattle.refusals.specs.Refusals.{no_room, notice};
ghost use Rattle.std.specs.Prelude.{◌≡◌, true, is_some, None};

use filing::single::file;
use refusals::refusal::{Refusal, RoomFault};
use spool::interface::Spool;
use spool::ticket::{Ticket, stage};

// The fault in a refusal for want of room. Other refusals have none, so that this is no conversion of every refusal.
fn fault_of(refusal: Refusal) -> RoomFault
    requires { (notice refusal).number ≡ 12 }
    ensures { notice refusal ≡ no_room result }
{
    match refusal {
        Refusal::NoRoom(fault) => fault,
        _ => unreachable(),
    }
}

// Stages a recipient's entry in the lot that is open.
pub(crate) fn stage_one<S: Spool>(
    spool: &mut S,
    ticket: &Ticket,
    recipient: usize,
    payload: &[u8],
) -> Result<(), RoomFault>
    requires { is_some (S.Spool.lot spool.old) ≡ true }
    ensures tried { Tried S.Spool spool.old spool.new (entry payload.now recipient) result }
    ensures floor { S.Spool.floor spool.new ≡ S.Spool.floor spool.old }
{
    stage(spool, ticket, recipient % 64, payload).map_err(fault_of)
}

// Files a recipient's entry in a lot of its own. It has another call and another promise than `stage_one`.
pub(crate) fn file_one<S: Spool>(
    spool: &mut S,
    recipient: usize,
    payload: &[u8],
) -> Result<(), RoomFault>
    requires { S.Spool.lot spool.old ≡ None }
    ensures lot { OneLot S.Spool spool.old spool.new (entry payload.now recipient) result }
    ensures floor { S.Spool.floor spool.new ≡ S.Spool.floor spool.old }
{
    file(spool, recipient % 64, payload).map_err(fault_of)
}
