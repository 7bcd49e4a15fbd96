//! Why files answered 30, told after a run, a load or a session.

use crate::done::Ran;
use crate::missed::write_path;
use command_support::deck_of;
use file_control::FileDesc;
use folder_shelf::System;
use std::alloc::Global;
use std::io::{self, Write};
use streams::StandardOutput;
use system_files::Cause;

/// Tells why the file of this name in the folder answered 30 first, by the line of this number. There
/// is no cause where no call of the system failed.
fn tell_cause<E: Write>(
    name: &str,
    cause: Option<Cause>,
    line: u64,
    err: &mut E,
) -> io::Result<()> {
    write!(err, "cobix: {name}: ")?;
    match cause {
        Some(cause) => write!(err, "{cause}")?,
        None => write!(err, "an earlier verb failed, or the file is damaged")?,
    }
    writeln!(err, " (line {line} of the transcript)")
}

/// Tells why a file of the deck answered 30, if it did.
fn tell_file<S: System, W: Write, E: Write>(
    system: &S,
    unit: usize,
    file: &FileDesc,
    out: &StandardOutput<W>,
    err: &mut E,
) {
    if let Some(line) = out.fault_line_of(file.name.as_str().as_bytes()) {
        let _ = tell_cause(file.file.as_str(), system.cause(unit), line, err);
    }
}

/// Tells, in a line for each file by which a line of the transcript ends in 30, why it first
/// failed, and the number of the first such line. Where memory is wanting, nothing is told.
pub fn tell_causes<S: System, W: Write, E: Write>(
    alloc: Global,
    system: &S,
    ran: &Ran,
    out: &StandardOutput<W>,
    err: &mut E,
) {
    if !out.has_failed_line() {
        return;
    }
    let Ok(deck) = deck_of(alloc, ran.bytes.as_slice()) else {
        return;
    };
    for (unit, file) in deck.files.as_slice().iter().enumerate() {
        tell_file(system, unit, file, out, err);
    }
}

/// Tells why a call on the file of this name failed.
fn tell_failed<E: Write>(name: &str, cause: Cause, err: &mut E) -> io::Result<()> {
    write!(err, "cobix: ")?;
    write_path(name, err)?;
    writeln!(err, ": {cause}")
}

/// Tells, in a line for each file of a load or a session on which a call of the system failed, why it
/// first failed.
pub fn tell_failed_files<S: System, E: Write>(system: &S, err: &mut E) {
    for unit in 0..system.units() {
        if let (Some(name), Some(cause)) = (system.name(unit), system.cause(unit)) {
            let _ = tell_failed(name, cause, err);
        }
    }
}

/// Tells how many of the closes at the end of a session failed, if one did.
pub fn tell_unclosed<E: Write>(unclosed: usize, err: &mut E) {
    if unclosed > 0 {
        let _ = writeln!(
            err,
            "cobix: CLOSE failed at the end of the session, of files: {unclosed}"
        );
    }
}
