//! Questions asked, and their answers.
ghost use Rattle.std.specs.Prelude.{IfOk, OnOk};
ghost use Rattle.std.specs.Io.{ReadsAtMost, WritesAtMost};
ghost use Rattle.cobix_inside.specs.Answers.{stream, IsNumberTold, IsDone, IsYesTold, FillsBy};
ghost use Rattle.cobix_inside.specs.Questions.{read_for};
ghost use Rattle.cobix_inside.specs.declared.question.Question.TheVariants.{Write as Writes, Names};

use crate::question::{Question, put_question};
use crate::told::{lock_outcome, outcome, take_number, within};
use std::fs::TryLockError;
use std::io::{self, Read, Write};

/// Asks, and gives the number that is told. An error is that of the system, or of a stream.
pub fn ask<R: Read, W: Write>(
    input: &mut R,
    output: &mut W,
    question: &Question<'_>,
) -> io::Result<u64>
    ensures { IfOk result (IsNumberTold (stream R.remaining input.old input.new)
        (stream W.contents output.old output.new) question.now) }
{
    put_question(output, question)?;
    let number = take_number(input)?;
    outcome(number)
}

/// Asks for a lock.
pub fn ask_for_lock<R: Read, W: Write>(
    input: &mut R,
    output: &mut W,
    question: &Question<'_>,
) -> Result<(), TryLockError>
    ensures { OnOk result (IsDone (stream R.remaining input.old input.new)
        (stream W.contents output.old output.new) question.now) }
{
    lock_outcome(ask(input, output, question))
}

/// Asks whether a path names this very file.
pub fn ask_for_name<R: Read, W: Write>(
    input: &mut R,
    output: &mut W,
    file: u64,
    path: &str,
) -> io::Result<bool>
    ensures { IfOk result (IsYesTold (stream R.remaining input.old input.new)
        (stream W.contents output.old output.new) (Names file path.entry)) }
{
    let told = ask(input, output, &Question::Names { file, path })?;
    Ok(told == 1)
}

/// Asks for bytes of a file. How many came; `InvalidData` where more came than there is room for.
pub fn ask_to_read<R: Read, W: Write>(
    input: &mut R,
    output: &mut W,
    file: u64,
    at: u64,
    bytes: &mut [u8],
) -> io::Result<usize>
    ensures bound { ReadsAtMost result bytes.new }
    ensures told { IfOk result (FillsBy (stream R.remaining input.old input.new)
        (stream W.contents output.old output.new) (read_for file at bytes.old) bytes.new) }
{
    let count = bytes.len();
    let told = ask(input, output, &Question::Read { file, at, count })?;
    let came = within(told, count)?;
    input.read_exact(&mut bytes[..came])?;
    Ok(came)
}

/// Asks for bytes to be written. How many were taken; `InvalidData` where it is more than there are.
pub fn ask_to_write<R: Read, W: Write>(
    input: &mut R,
    output: &mut W,
    file: u64,
    at: u64,
    bytes: &[u8],
) -> io::Result<usize>
    ensures bound { WritesAtMost result bytes.now }
    ensures told { IfOk result (IsNumberTold (stream R.remaining input.old input.new)
        (stream W.contents output.old output.new) (Writes file at bytes.entry)) }
{
    let told = ask(input, output, &Question::Write { file, at, bytes })?;
    within(told, bytes.len())
}
