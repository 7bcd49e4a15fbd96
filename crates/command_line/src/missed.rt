//! What could not be read or written, and why: the second line of `cobix: input` and `cobix: output`.

use command_support::{CommandFault, Outcome};
use folder_shelf::{System, Unread};
use std::io::{self, ErrorKind, Write};
use streams::StandardOutput;
use system_files::Cause;

/// What a fault says was not read or written.
#[derive(Clone, Copy, Debug, PartialEq, Eq)]
pub enum Missed {
    Nothing,
    Input,
    Output,
}

/// Whether the input or the output is what failed.
pub fn missed_stream(outcome: &Result<Outcome, CommandFault>) -> Missed {
    match outcome {
        Err(CommandFault::Input) => Missed::Input,
        Err(CommandFault::Output) => Missed::Output,
        _ => Missed::Nothing,
    }
}

/// Writes a path as a transcript shows the bytes of a record: each byte that is no plain character
/// as a backslash and two digits.
pub fn write_path<E: Write>(path: &str, err: &mut E) -> io::Result<()> {
    for byte in path.as_bytes() {
        match *byte {
            b'\\' => write!(err, "\\5c")?,
            b' '..=b'~' => write!(err, "{}", char::from(*byte))?,
            other => write!(err, "\\{other:02x}")?,
        }
    }
    Ok(())
}

/// Why an error of the system came, in words.
fn words_of(kind: ErrorKind) -> &'static str {
    match kind {
        ErrorKind::StorageFull => "no space left on device",
        ErrorKind::BrokenPipe => "broken pipe",
        ErrorKind::WouldBlock => "it takes no more bytes now",
        _ => "the system refused it",
    }
}

/// Tells the path of a file or a folder of which nothing was told when it was asked for, and why.
fn tell_unread<E: Write>(unread: &Unread, err: &mut E) -> io::Result<()> {
    write!(err, "  ")?;
    write_path(unread.path.as_str(), err)?;
    match unread.cause {
        Cause::Other(ErrorKind::NotFound) => writeln!(err, ": no such file or folder"),
        Cause::Other(ErrorKind::NotADirectory) => writeln!(err, ": is no folder"),
        cause => writeln!(err, ": {cause}"),
    }
}

/// Tells why standard output was not written.
fn tell_output<W: Write, E: Write>(out: &StandardOutput<W>, err: &mut E) -> io::Result<()> {
    match out.refusal() {
        Some(kind) => writeln!(err, "  standard output: {}", words_of(kind)),
        None => Ok(()),
    }
}

/// Tells the path of what could not be read, and why, as the two systems answered; or why standard output
/// was not written.
pub fn tell_missed<S: System, W: Write, E: Write>(
    system: &S,
    reader: &S,
    missed: Missed,
    out: &StandardOutput<W>,
    err: &mut E,
) {
    match missed {
        Missed::Nothing => {}
        Missed::Output => {
            let _ = tell_output(out, err);
        }
        Missed::Input => {
            for unread in system.unread() {
                let _ = tell_unread(unread, err);
            }
            for unread in reader.unread() {
                let _ = tell_unread(unread, err);
            }
        }
    }
}
