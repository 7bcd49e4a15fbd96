//! The lines that tell of files that were checked.
ghost use Rattle.std.specs.Prelude.{◌≡◌, ◌++◌, codes, decimal, IfOk, OnOk};
ghost use Rattle.record_text.specs.Columns.{text_of};
ghost use Rattle.file_commands.specs.Verdicts.{verdict_line, behind_path, IsUnreadLine};

use crate::shown::add_shown;
use file_checker::Verdict;
use itoa::Buffer;
use std::alloc::{AllocError, Global};
use system_files::Cause;

/// Adds a text.
fn add(line: &mut Vec<u8>, text: &[u8]) -> Result<(), AllocError>
    ensures { OnOk result (line.new.items ≡ line.old.items ++ text.now) }
{
    line.extend_from_slice(text)
}

/// Adds a text, and a number behind it.
fn add_number(line: &mut Vec<u8>, text: &[u8], n: u64) -> Result<(), AllocError>
    ensures { OnOk result (line.new.items ≡ line.old.items ++ (text.now ++ decimal n)) }
{
    add(line, text)?;
    let mut buffer = Buffer::new();
    line.extend_from_slice(buffer.format(n).as_bytes())
}

/// Adds the line of a verdict.
fn add_verdict(line: &mut Vec<u8>, verdict: Verdict) -> Result<(), AllocError>
    ensures { OnOk result (line.new.items ≡ line.old.items ++ verdict_line verdict) }
{
    match verdict {
        Verdict::Sound { records, pages } => {
            add_number(line, b"sound records ", records)?;
            add_number(line, b" pages ", u64::from(pages))?;
        }
        Verdict::Unsound(reason, _) => {
            add_number(line, b"unsound ", u64::from(reason.number()))?;
        }
    }
    add(line, b"\n")
}

/// Adds a path as it is shown, and what parts it from what is told of its file.
fn add_path(line: &mut Vec<u8>, path: &str) -> Result<(), AllocError>
    ensures { OnOk result (line.new.items ≡ line.old.items ++ (text_of path.now ++ codes ": ")) }
{
    add_shown(line, path.as_bytes())?;
    add(line, b": ")
}

/// Adds a cause as it is shown, and ends the line.
fn add_cause(line: &mut Vec<u8>, cause: &str) -> Result<(), AllocError>
    ensures { OnOk result (line.new.items ≡ line.old.items ++ (text_of cause.now ++ codes "\n")) }
{
    add_shown(line, cause.as_bytes())?;
    add(line, b"\n")
}

/// Adds that a file cannot be read, and why.
fn add_unread(line: &mut Vec<u8>, cause: &str) -> Result<(), AllocError>
    ensures { OnOk result (line.new.items
        ≡ line.old.items ++ (codes "cannot be read: " ++ (text_of cause.now ++ codes "\n"))) }
{
    add(line, b"cannot be read: ")?;
    add_cause(line, cause)
}

/// The line of a verdict.
pub fn verdict_line(alloc: Global, verdict: Verdict) -> Result<Vec<u8>, AllocError>
    ensures { IfOk result (λ line. line.items ≡ verdict_line verdict) }
{
    let mut line = Vec::new(alloc);
    add_verdict(&mut line, verdict)?;
    Ok(line)
}

/// The line of the verdict on the file of a path, which stands before it.
pub fn named_line(alloc: Global, path: &str, verdict: Verdict) -> Result<Vec<u8>, AllocError>
    ensures { IfOk result (λ line. line.items ≡ behind_path path.now (verdict_line verdict)) }
{
    let mut line = Vec::new(alloc);
    add_path(&mut line, path)?;
    add_verdict(&mut line, verdict)?;
    Ok(line)
}

/// The line of a file of a path that cannot be read, for this cause.
pub fn unread_line(alloc: Global, path: &str, cause: Cause) -> Result<Vec<u8>, AllocError>
    ensures { IfOk result (λ line. IsUnreadLine path.now line.items) }
{
    let why = cause.to_string(alloc)?;
    let mut line = Vec::new(alloc);
    add_path(&mut line, path)?;
    add_unread(&mut line, why.as_str())?;
    Ok(line)
}
