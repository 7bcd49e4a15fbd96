//! A text that was listed is written in UTF-8.
ghost use Rattle.std.specs.Prelude.{◌≡◌, ◌⊎◌, Ok, Err, IfOk, IfErr, OnOk};
ghost use Rattle.std.specs.Io.KnownBytes.{Appends};
ghost use Rattle.streams.specs.InUtf8.{in_utf_8};
ghost use Rattle.command_line.specs.Encoded.{HandsTextOver, IsNoRoom};

use command_support::{CommandFault, Outcome};
use std::alloc::Global;
use std::io::Write;
use streams::{Backslashes, in_utf_8};

/// What was done where a text was listed into memory, which alone may have failed then.
fn of_memory(made: Result<Outcome, CommandFault>) -> Result<Outcome, CommandFault>
    ensures done { IfOk result (λ outcome. made ≡ Ok outcome) }
    ensures fault { IfErr result (λ fault. (made ≡ Err fault) ⊎ IsNoRoom fault) }
{
    match made {
        Ok(outcome) => Ok(outcome),
        Err(CommandFault::Output) => Err(CommandFault::Memory),
        Err(fault) => Err(fault),
    }
}

/// Writes a text in UTF-8.
fn write_in_utf_8<W: Write>(
    alloc: Global,
    backslashes: Backslashes,
    text: &[u8],
    out: &mut W,
) -> Result<(), CommandFault>
    ensures written { OnOk result (Appends (W.contents out.old) (W.contents out.new)
        (in_utf_8 backslashes text.now)) }
    ensures fault { IfErr result IsNoRoom }
{
    let encoded = match in_utf_8(alloc, backslashes, text) {
        Ok(encoded) => encoded,
        Err(_) => return Err(CommandFault::Memory),
    };
    match out.write_all(encoded.as_slice()) {
        Ok(()) => Ok(()),
        Err(_) => Err(CommandFault::Output),
    }
}

/// Writes a text that was listed in UTF-8, and answers what was done by the list. Where the text is
/// empty, nothing is written.
pub fn hand_over<W: Write>(
    alloc: Global,
    backslashes: Backslashes,
    text: &[u8],
    made: Result<Outcome, CommandFault>,
    out: &mut W,
) -> Result<Outcome, CommandFault>
    ensures { HandsTextOver backslashes text.now made W.contents out.old out.new result }
{
    if text.is_empty() {
        return of_memory(made);
    }
    match write_in_utf_8(alloc, backslashes, text, out) {
        Ok(()) => of_memory(made),
        Err(fault) => Err(fault),
    }
}
