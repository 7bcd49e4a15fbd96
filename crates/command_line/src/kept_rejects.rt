//! The file that keeps the lines that a load rejects.
ghost use Rattle.std.specs.Prelude.{◌≡◌, ◌⊎◌, true, false, IsSome, option_map, OnOk, IfErr, Err};
ghost use Rattle.std.specs.Option.{IfSome};
ghost use Rattle.record_text.specs.Lines.{form_header};
ghost use Rattle.record_loading.specs.Kept.{All, IsAllKept};
ghost use Rattle.command_support.specs.Status.{status_of};

use command_support::{CommandFault, Outcome};
use record_loading::{KeepsLines, LoadOptions};
use record_text::{Form, append_header};
use std::alloc::Global;

/// Whether a file for rejected lines is asked for, and the first one ends the load.
pub fn are_lone(rejects: Option<&str>, options: LoadOptions) -> bool
    ensures { result ≡ true → IsSome (option_map (λ text. text.now) rejects.entry) × (options.keep_going ≡ false) }
{
    match rejects {
        Some(_) => !options.keep_going,
        None => false,
    }
}

/// Makes the file of this path for rejected lines, if it is asked for. It begins with what stands before the
/// first line of a text in a form, so that it is such a text itself. `Output`: it was not made.
pub fn keep_rejects<R: KeepsLines>(
    alloc: Global,
    path: Option<&str>,
    form: &Form,
    rejects: &mut R,
) -> Result<(), CommandFault>
    ensures kept { OnOk result (IfSome path.entry (λ _. R.kept rejects.new ≡ All (form_header form.now))) }
    ensures fault { IfErr result (λ fault. status_of fault ≡ 4) }
{
    let Some(path) = path else {
        return Ok(());
    };
    let mut header = Vec::new(alloc);
    if append_header(&mut header, form).is_err() {
        return Err(CommandFault::Memory);
    }
    if rejects.keep_in(path, header.as_slice()) {
        Ok(())
    } else {
        Err(CommandFault::Output)
    }
}

/// What is told of a load: where the file for rejected lines did not take all of them, the output failed.
pub fn told_if_kept<R: KeepsLines>(
    rejects: &mut R,
    told: Result<Outcome, CommandFault>,
) -> Result<Outcome, CommandFault>
    ensures told { (result ≡ told) ⊎ (result ≡ Err CommandFault.Output) }
    ensures kept { (R.kept rejects.new ≡ R.kept rejects.old) × IsAllKept (R.kept rejects.old)
        ⊎ (result ≡ Err CommandFault.Output) }
{
    if rejects.finish() {
        told
    } else {
        Err(CommandFault::Output)
    }
}
