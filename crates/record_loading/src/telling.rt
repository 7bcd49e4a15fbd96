//! What is told of lines that a load rejects.
ghost use Rattle.std.specs.Prelude.{◌++◌, codes, OnOk};
ghost use Rattle.std.specs.Io.KnownBytes.{Appends};
ghost use Rattle.record_loading.specs.Answer.{status_text, line_start, reason_text};
ghost use Rattle.record_loading.specs.MistakeLine.{rejected_line_text};

use crate::mistake_line::write_mistake;
use crate::rejected::{RejectReason, RejectedLine};
use io_state::Status;
use itoa::Buffer;
use std::io::{self, ErrorKind, Write};

/// Writes a status, and ends the line.
fn write_status<W: Write>(out: &mut W, status: Status) -> io::Result<()>
    ensures { OnOk result (Appends (W.contents out.old) (W.contents out.new) (status_text status)) }
{
    out.write_all(b"status ")?;
    out.write_all(&status.digits())?;
    out.write_all(b"\n")
}

/// Writes why a line was rejected, and ends the line.
fn write_reason<W: Write>(out: &mut W, reason: RejectReason) -> io::Result<()>
    ensures { OnOk result (Appends (W.contents out.old) (W.contents out.new) (reason_text reason)) }
{
    match reason {
        RejectReason::Refused(status) => write_status(out, status),
        RejectReason::NoRecord(_) => out.write_all(b"no record of this file\n"),
    }
}

/// Writes the number of a line.
fn write_number<W: Write>(out: &mut W, line: u64) -> io::Result<()>
    ensures { OnOk result (Appends (W.contents out.old) (W.contents out.new) (line_start line)) }
{
    let mut buffer = Buffer::new();
    out.write_all(b"line ")?;
    out.write_all(buffer.format(line).as_bytes())?;
    out.write_all(b": ")
}

/// Begins to tell of a line.
fn write_start<W: Write>(out: &mut W, line: u64) -> io::Result<()>
    ensures { OnOk result (Appends (W.contents out.old) (W.contents out.new)
        (codes "cobix: " ++ line_start line)) }
{
    out.write_all(b"cobix: ")?;
    write_number(out, line)
}

/// Writes the line that tells of a line that was rejected, and behind it what is wrong with one that is
/// no record's.
pub fn write_rejected<W: Write>(out: &mut W, rejected: &RejectedLine) -> io::Result<()>
    ensures { OnOk result (Appends (W.contents out.old) (W.contents out.new)
        (rejected_line_text rejected.now)) }
{
    write_start(out, rejected.line)?;
    write_reason(out, rejected.reason)?;
    write_mistake(out, rejected.line, rejected.reason)
}

/// Writes a path as a transcript shows the bytes of a record: each byte that is no plain character as a
/// backslash and two digits.
fn write_path<W: Write>(out: &mut W, path: &str) -> io::Result<()> {
    for byte in path.as_bytes() {
        match *byte {
            b'\\' => write!(out, "\\5c")?,
            b' '..=b'~' => write!(out, "{}", char::from(*byte))?,
            other => write!(out, "\\{other:02x}")?,
        }
    }
    Ok(())
}

/// Why a new file was not made, or did not take all bytes, in words.
fn words_of(kind: ErrorKind) -> &'static str {
    match kind {
        ErrorKind::AlreadyExists => "is there already",
        ErrorKind::NotFound => "no such folder",
        ErrorKind::NotADirectory => "is in no folder",
        ErrorKind::PermissionDenied => "permission denied",
        ErrorKind::ReadOnlyFilesystem => "read-only file system",
        ErrorKind::StorageFull => "no space left on device",
        ErrorKind::FileTooLarge => "file too large",
        _ => "the system refused it",
    }
}

/// Writes the path of a new file, and why it was not made, or did not take all bytes.
pub fn write_refusal<W: Write>(out: &mut W, path: &str, kind: ErrorKind) -> io::Result<()> {
    write!(out, "  ")?;
    write_path(out, path)?;
    writeln!(out, ": {}", words_of(kind))
}
