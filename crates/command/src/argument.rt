ghost use Rattle.address.specs.Parts.{Only};
ghost use Rattle.command.specs.Arguments.{IsMail, IsRcpt, Refused, mail_syntax, rcpt_syntax};
ghost use Rattle.command.specs.Faults.{verdict};
ghost use Rattle.std.specs.Prelude.{◌≡◌, drop, MatchResult};

use crate::fault::LineFault;
use crate::line::{behind, strip_word};
use crate::parameter::{mail_parameters, rcpt_parameters};
use paths::envelope::{ForwardPath, ReversePath, forward_path, reverse_path};

// The argument of MAIL: where the mail comes from, with places that count from behind "FROM:", and the size that is declared,
// which is kept as the largest usize where it passes that.
#[derive(Clone, Copy, PartialEq, Eq, Debug)]
pub struct MailLine {
    pub path: ReversePath,
    pub size: Option<usize>,
}

// The argument of RCPT: whom the mail is for, with places that count from behind "TO:".
#[derive(Clone, Copy, PartialEq, Eq, Debug)]
pub struct RcptLine {
    pub path: ForwardPath,
}

// What stands behind "TO:": the octets that the places of an RCPT line's path count in.
pub fn behind_to(argument: &[u8]) -> &[u8]
    ensures { result.now ≡ drop 3 argument.now }
{
    behind(argument, 3)
}

// The argument of MAIL: "FROM:", a path, parameters.
pub fn read_mail(argument: &[u8]) -> Result<MailLine, LineFault>
    ensures { MatchResult result (λ line. Only (IsMail argument.now) line) (λ e. Refused mail_syntax IsMail argument.now (verdict e)) }
{
    let route = strip_word(argument, b"FROM:").ok_or(LineFault::BadArgument)?;
    let path = reverse_path(route)?;
    let size = mail_parameters(behind(route, path.end()))?;
    Ok(MailLine { path, size })
}

// The argument of RCPT: "TO:", a path, and no parameter. It shares with MAIL's the order of four lines, each over another function.
pub fn read_rcpt(argument: &[u8]) -> Result<RcptLine, LineFault>
    ensures { MatchResult result (λ line. Only (IsRcpt argument.now) line) (λ e. Refused rcpt_syntax IsRcpt argument.now (verdict e)) }
{
    let route = strip_word(argument, b"TO:").ok_or(LineFault::BadArgument)?;
    let path = forward_path(route)?;
    rcpt_parameters(behind(route, path.end()))?;
    Ok(RcptLine { path })
}
