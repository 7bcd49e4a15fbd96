//! A text that is written whole.
ghost use Rattle.command_support.specs.Front.{WritesWhole};

use command_support::{CommandFault, Outcome};
use std::io::Write;

/// Writes a text, and answers what was done by that.
pub fn write_text<W: Write>(text: &str, done: Outcome, out: &mut W) -> Result<Outcome, CommandFault>
    ensures { WritesWhole text.now done W.contents out.old out.new result }
{
    match out.write_all(text.as_bytes()) {
        Ok(()) => Ok(done),
        Err(_) => Err(CommandFault::Output),
    }
}
