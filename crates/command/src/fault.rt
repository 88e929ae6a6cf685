ghost use Rattle.command.specs.Faults.{verdict};
ghost use Rattle.command.specs.declared.fault.LineFault.TheVariants.{BadPath};
ghost use Rattle.std.specs.Prelude.{◌≡◌};

use paths::path::PathFault;

// What is wrong with the argument of MAIL or RCPT.
#[derive(Clone, Copy, PartialEq, Eq, Debug)]
pub enum LineFault {
    BadPath(PathFault),
    BadArgument,
    UnknownParameter,
}

// An argument with a bad path is wrong by the path's fault.
impl From<PathFault> for LineFault {
    ghost from_gives = { λ fault wrong. wrong ≡ BadPath fault };

    fn from(fault: PathFault) -> LineFault {
        LineFault::BadPath(fault)
    }
}

// The code of the reply to a fault. Two faults have the same code, so that no conversion gives it.
pub fn reply_code(fault: LineFault) -> u16
    ensures { result ≡ (verdict fault).code }
{
    match fault {
        LineFault::BadPath(_) | LineFault::BadArgument => 501,
        LineFault::UnknownParameter => 555,
    }
}
