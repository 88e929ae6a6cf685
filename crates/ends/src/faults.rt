ghost use Rattle.ends.specs.Faults.{reply_of};
ghost use Rattle.ends.specs.declared.faults.EndFault.TheVariants.{Room};
ghost use Rattle.std.specs.Prelude.{◌≡◌};

use protocol::reply::Reply;
use refusals::refusal::RoomFault;

// Why a recipient's entry is not filed: the spool has no room for it, or its mailbox has been filed too many.
#[derive(Clone, Copy)]
pub enum EndFault {
    Room(RoomFault),
    Ledger,
}

impl From<RoomFault> for EndFault {
    ghost from_gives = { λ f r. r ≡ Room f };

    fn from(fault: RoomFault) -> EndFault {
        EndFault::Room(fault)
    }
}

impl From<EndFault> for Reply {
    ghost from_gives = { λ f r. r ≡ reply_of f };

    fn from(fault: EndFault) -> Reply {
        match fault {
            EndFault::Room(room) => Reply::NoRoom(room),
            EndFault::Ledger => Reply::LedgerFull,
        }
    }
}
