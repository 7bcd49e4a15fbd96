//! The explanation of a status, a fault of a deck, or a reason of a check.
ghost use Rattle.std.specs.Prelude.{◌≡◌, ◌⊎◌, None, IsSome, IfOk, IfErr};
ghost use Rattle.file_checker.specs.declared.verdict.Reason.{Reason as ToldReason};
ghost use Rattle.file_checker.specs.Numbers.{number_of};
ghost use Rattle.explanations.specs.Explained.{text_in, digit_of};
ghost use Rattle.explanations.specs.Tables.{explanation, reason_table};
ghost use Rattle.command_line.specs.Explained.{Explains};

use command_support::{CommandFault, Outcome};
use explanations::explanation_of;
use std::io::Write;

/// Writes what is explained of a number of a kind. `Unexplained`: there is no such number, and
/// nothing was written.
pub fn explain<W: Write>(kind: &str, number: &str, out: &mut W) -> Result<Outcome, CommandFault>
    ensures done { IfOk result (λ outcome. outcome ≡ Outcome.Explained) }
    ensures text { IfOk result (λ _. Explains kind.now number.now W.contents out.old out.new) }
    ensures none { IfErr result (λ fault.
        fault ≡ CommandFault.Unexplained → explanation kind.now number.now ≡ None) }
    ensures untouched { IfErr result (λ fault. fault ≡ CommandFault.Unexplained → out.new ≡ out.old) }
    ensures fault { IfErr result (λ fault. (fault ≡ CommandFault.Unexplained) ⊎ (fault ≡ CommandFault.Output)) }
{
    let Some(text) = explanation_of(kind, number) else {
        return Err(CommandFault::Unexplained);
    };
    match out.write_all(text.as_bytes()) {
        Ok(()) => Ok(Outcome::Explained),
        Err(_) => Err(CommandFault::Output),
    }
}

/// Each reason of a check is explained.
pub fn every_reason_is_explained()
    ensures { (reason : ToldReason) → IsSome (text_in reason_table (digit_of (number_of reason))) }
{}
