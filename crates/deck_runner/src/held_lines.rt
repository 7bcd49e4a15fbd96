//! The lines that are on their way to the writer.
ghost use Rattle.std.specs.Prelude.{◌≡◌, OnOk, OnErr};
ghost use Rattle.streams.specs.Output.{AppendsFront};
ghost use Rattle.deck_runner.specs.Reads.{only_reads};
ghost use Rattle.deck_runner.specs.HeldLines.{MakesWay};

use io_state::FileStatement;
use std::io::Write;
use streams::{HeldText, Refused};

/// Whether a statement leaves all files as they are: READ and START.
pub fn only_reads(statement: &FileStatement) -> bool
    ensures { result ≡ only_reads statement.now }
{
    matches!(
        statement,
        FileStatement::ReadNext
            | FileStatement::Read { key: _ }
            | FileStatement::Start {
                key: _,
                length: _,
                relation: _,
            }
    )
}

/// Hands all lines that are held to the writer before a statement that may change a file. A refusal
/// leaves a proper front of them in the writer.
pub fn make_way<W: Write>(
    held: &mut HeldText,
    statement: &FileStatement,
    out: &mut W,
) -> Result<(), Refused>
    ensures ready { OnOk result (MakesWay (W.contents out.old)
        (W.contents out.new) held.old held.new statement.now) }
    ensures refused { OnErr result (AppendsFront (W.contents out.old) (W.contents out.new) held.old) }
{
    if only_reads(statement) {
        return Ok(());
    }
    held.hand_over(out)
}
