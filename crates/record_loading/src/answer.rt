//! What is told of a load.
ghost use Rattle.std.specs.Prelude.{◌≡◌, ◌++◌, codes, decimal, OnOk};
ghost use Rattle.record_loading.specs.Answer.{status_text, replaced_text, rejected_text, loaded_text, line_start};
ghost use Rattle.record_loading.specs.Answer.{reason_text, told_line_text, told_lines, told_close};
ghost use Rattle.record_loading.specs.Answer.{answer_of, is_loaded};

use crate::end::{LinesEnd, LoadEnd};
use crate::rejected::{RejectReason, RejectedLine};
use io_state::Status;
use itoa::Buffer;
use std::alloc::AllocError;

/// Whether the record of each line that was not skipped was written, or replaced another one, and CLOSE
/// was a success.
pub fn is_loaded(end: LoadEnd) -> bool
    ensures { result ≡ is_loaded end }
{
    match end {
        LoadEnd::Opened {
            lines: LinesEnd::Loaded { rejected, .. },
            closed,
        } => rejected == 0 && closed.is_success(),
        _ => false,
    }
}

/// Adds a text.
fn add(answer: &mut Vec<u8>, text: &[u8]) -> Result<(), AllocError>
    ensures { OnOk result (answer.new.items ≡ answer.old.items ++ text.now) }
{
    answer.extend_from_slice(text)
}

/// Adds a number.
fn add_number(answer: &mut Vec<u8>, n: u64) -> Result<(), AllocError>
    ensures { OnOk result (answer.new.items ≡ answer.old.items ++ decimal n) }
{
    let mut buffer = Buffer::new();
    answer.extend_from_slice(buffer.format(n).as_bytes())
}

/// Adds a status, and ends the line.
fn add_status(answer: &mut Vec<u8>, status: Status) -> Result<(), AllocError>
    ensures { OnOk result (answer.new.items ≡ answer.old.items ++ status_text status) }
{
    add(answer, b"status ")?;
    add(answer, &status.digits())?;
    add(answer, b"\n")
}

/// Adds how many records were replaced, if any were.
fn add_replaced(answer: &mut Vec<u8>, replaced: u64) -> Result<(), AllocError>
    ensures { OnOk result (answer.new.items ≡ answer.old.items ++ replaced_text replaced) }
{
    if replaced == 0 {
        return Ok(());
    }
    add(answer, b", replaced ")?;
    add_number(answer, replaced)
}

/// Adds how many lines were rejected, if any were.
fn add_rejected(answer: &mut Vec<u8>, rejected: u64) -> Result<(), AllocError>
    ensures { OnOk result (answer.new.items ≡ answer.old.items ++ rejected_text rejected) }
{
    if rejected == 0 {
        return Ok(());
    }
    add(answer, b", rejected ")?;
    add_number(answer, rejected)
}

/// Adds how many records were loaded, how many replaced, and how many lines were rejected.
fn add_count(
    answer: &mut Vec<u8>,
    records: u64,
    replaced: u64,
    rejected: u64,
) -> Result<(), AllocError>
    ensures { OnOk result (answer.new.items ≡ answer.old.items ++ loaded_text records replaced rejected) }
{
    add(answer, b"loaded ")?;
    add_number(answer, records)?;
    add_replaced(answer, replaced)?;
    add_rejected(answer, rejected)?;
    add(answer, b"\n")
}

/// Begins to tell of a line.
fn add_line_start(answer: &mut Vec<u8>, line: u64) -> Result<(), AllocError>
    ensures { OnOk result (answer.new.items ≡ answer.old.items ++ line_start line) }
{
    add(answer, b"line ")?;
    add_number(answer, line)?;
    add(answer, b": ")
}

/// Adds why the record of a line was not written.
fn add_reason(answer: &mut Vec<u8>, reason: RejectReason) -> Result<(), AllocError>
    ensures { OnOk result (answer.new.items ≡ answer.old.items ++ reason_text reason) }
{
    match reason {
        RejectReason::Refused(status) => add_status(answer, status),
        RejectReason::NoRecord(_) => add(answer, b"no record of this file\n"),
    }
}

/// Adds what is told of a line whose record was not written.
fn add_line(answer: &mut Vec<u8>, line: u64, reason: RejectReason) -> Result<(), AllocError>
    ensures { OnOk result (answer.new.items ≡ answer.old.items ++ told_line_text line reason) }
{
    add_line_start(answer, line)?;
    add_reason(answer, reason)
}

/// Adds how the lines ended, whose file was closed with this status.
fn add_lines(answer: &mut Vec<u8>, lines: LinesEnd, closed: Status) -> Result<(), AllocError>
    ensures { OnOk result (answer.new.items ≡ answer.old.items ++ told_lines lines closed) }
{
    match lines {
        LinesEnd::Loaded {
            records,
            replaced,
            rejected,
        } => {
            if closed.is_success() {
                return add_count(answer, records, replaced, rejected);
            }
            Ok(())
        }
        LinesEnd::Refused { line, status } => {
            add_line(answer, line, RejectReason::Refused(status))
        }
        LinesEnd::NoRecord { line, mistake } => {
            add_line(answer, line, RejectReason::NoRecord(mistake))
        }
    }
}

/// Adds what CLOSE answered, where it was no success.
fn add_close(answer: &mut Vec<u8>, closed: Status) -> Result<(), AllocError>
    ensures { OnOk result (answer.new.items ≡ answer.old.items ++ told_close closed) }
{
    if closed.is_success() {
        return Ok(());
    }
    add(answer, b"close: ")?;
    add_status(answer, closed)
}

/// Adds the line that tells of a line that was rejected.
pub fn add_rejected_line(answer: &mut Vec<u8>, rejected: RejectedLine) -> Result<(), AllocError>
    ensures { OnOk result (answer.new.items ≡ answer.old.items ++ told_line_text rejected.line rejected.reason) }
{
    add_line(answer, rejected.line, rejected.reason)
}

/// Adds the lines that tell of a load.
pub fn add_answer(answer: &mut Vec<u8>, end: LoadEnd) -> Result<(), AllocError>
    ensures { OnOk result (answer.new.items ≡ answer.old.items ++ answer_of end) }
{
    match end {
        LoadEnd::NotOpened { status } => {
            add(answer, b"open: ")?;
            add_status(answer, status)
        }
        LoadEnd::Opened { lines, closed } => {
            add_lines(answer, lines, closed)?;
            add_close(answer, closed)
        }
    }
}
