ghost use Rattle.std.specs.Prelude.{◌≡◌, ℕ, List, [], ◌∷◌, codes, MatchResult};
ghost use Rattle.command.specs.Faults.{verdict};
ghost use Rattle.command.specs.Lines.{Begins};
ghost use Rattle.command.specs.Numerals.{kept};
ghost use Rattle.command.specs.Parameters.{Behind, IsSize, Sized, Wrong, knows_none, size_only};

use crate::fault::LineFault;
use crate::line::{cut_at_space, strip_word};
use crate::numeral::numeral;

// What is wrong with a parameter that is none of the command's own.
fn foreign_fault(param: &[u8]) -> LineFault
    ensures { Wrong knows_none [] param.now (verdict result) }
{
    if param.is_empty() {
        return LineFault::BadArgument;
    }
    LineFault::UnknownParameter
}

// The size that the first parameter of MAIL declares, as it is kept.
fn declared_size(param: &[u8]) -> Result<usize, LineFault>
    ensures { MatchResult result (λ size. (n : ℕ) × IsSize param.now n × (size ≡ kept n)) (λ e. Wrong size_only [] param.now (verdict e)) }
{
    match strip_word(param, b"SIZE=") {
        Some(digits) => numeral(digits, 20).ok_or(LineFault::BadArgument),
        None => Err(foreign_fault(param)),
    }
}

// What is wrong with a parameter of MAIL behind one that declares the size.
fn second_fault(param: &[u8]) -> LineFault
    ensures { (first : List ℕ) → Begins (codes "SIZE=") first → Wrong size_only (first ∷ []) param.now (verdict result) }
{
    if strip_word(param, b"SIZE=").is_some() {
        return LineFault::BadArgument;
    }
    foreign_fault(param)
}

// The size that the parameters of MAIL declare: only SIZE= is known, once, so that a second parameter is wrong.
pub(crate) fn mail_parameters(rest: &[u8]) -> Result<Option<usize>, LineFault>
    ensures { MatchResult result (λ size. Sized rest.now size) (λ e. Behind size_only rest.now (verdict e)) }
{
    match rest {
        [] => Ok(None),
        [b' ', params @ ..] => {
            let (first, more) = cut_at_space(params);
            let size = declared_size(first)?;
            match more {
                Some(more) => Err(second_fault(cut_at_space(more).0)),
                None => Ok(Some(size)),
            }
        }
        _ => Err(LineFault::BadArgument),
    }
}

// RCPT knows no parameter, so that the first one is wrong.
pub(crate) fn rcpt_parameters(rest: &[u8]) -> Result<(), LineFault>
    ensures { MatchResult result (λ _. rest.now ≡ []) (λ e. Behind knows_none rest.now (verdict e)) }
{
    match rest {
        [] => Ok(()),
        [b' ', params @ ..] => Err(foreign_fault(cut_at_space(params).0)),
        _ => Err(LineFault::BadArgument),
    }
}
