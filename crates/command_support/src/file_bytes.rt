//! The bytes of a file: of a deck, of records, or of a text.
ghost use Rattle.std.specs.Prelude.{◌≡◌, ◌≢◌, [], ◌∷◌, Some, false, take, IsTrue, IfOk, OnErr};
ghost use Rattle.system_files.specs.Front.{IsFrontRead, IsTextRead};
ghost use Rattle.folder_shelf.specs.Calls.{taken, taken_shared};
ghost use Rattle.folder_shelf.specs.Reading.{ByReads};
ghost use Rattle.command_support.specs.Status.{status_of};
ghost use Rattle.command_support.specs.Front.{asked_by, longest_line, IsTextTaken, GivesSuch};
ghost use Rattle.command_support.specs.Front.{ReadsDeckNamed, ReadsTextNamed, ReadsCounted};

use crate::fault::CommandFault;
use byteorder::{BigEndian, ByteOrder};
use file_control::DECK_LIMIT;
use folder_shelf::System;
use pages::PAGE_SIZE;
use std::alloc::Global;
use std::io::{ErrorKind, Read};
use streams::{Progress, Silent};
use system_files::{Cause, ReadFault, read_front, read_lines};

/// The bytes that are read of a deck: one more than the longest deck has.
const MOST_BYTES: usize = DECK_LIMIT + 1;

/// Where the first page of a file counts its pages, itself among them.
const PAGES: usize = 12;

const PAGES_END: usize = 16;

/// No record has a line of so many bytes: JSON has at most four for each of a record's 4,000, and
/// its columns have names.
const LONGEST_LINE: usize = 1_048_576;

/// Why bytes did not come, as the command tells it.
pub fn fault_of(fault: ReadFault) -> CommandFault
    ensures { status_of result ≡ 4 }
{
    match fault {
        ReadFault::Memory => CommandFault::Memory,
        ReadFault::Device(Cause::Other(ErrorKind::OutOfMemory)) => CommandFault::Memory,
        ReadFault::Device(_) => CommandFault::Input,
    }
}

/// The bytes of the input to its end, or so many of the first ones.
fn read_input<I: Read>(alloc: Global, input: &mut I, most: usize) -> Result<Vec<u8>, CommandFault>
    ensures { GivesSuch (λ bytes. IsFrontRead most (I.remaining input.old) bytes.items) result }
{
    match read_front(alloc, input, most) {
        Ok(bytes) => Ok(bytes),
        Err(fault) => Err(fault_of(fault)),
    }
}

/// The bytes of the file of a path to its end, or so many of the first ones.
fn take_front<S: System>(system: &mut S, path: &str, most: usize) -> Result<Vec<u8>, CommandFault>
    ensures { ByReads (λ calls. GivesSuch (λ bytes.
        calls ≡ taken path.now most (Some bytes.items) ∷ []) result)
        (S.state system.old) (S.state system.new) }
{
    match system.take(path, most) {
        Ok(bytes) => Ok(bytes),
        Err(fault) => Err(fault_of(fault)),
    }
}

/// The bytes of a deck: those of the file of a path, or of the input where the path is a hyphen, to
/// the end, or the first 1,048,577.
pub fn read_deck_bytes<S: System, I: Read>(
    system: &mut S,
    alloc: Global,
    path: &str,
    input: &mut I,
) -> Result<Vec<u8>, CommandFault>
    ensures { ByReads (ReadsDeckNamed I.remaining path.now input.old input.new result)
        (S.state system.old) (S.state system.new) }
{
    if path == "-" {
        return read_input(alloc, input, MOST_BYTES);
    }
    take_front(system, path, MOST_BYTES)
}

/// The text that the input has: all of it, or a front that ends in a line which is too long for any
/// record.
fn read_input_text<I: Read>(alloc: Global, input: &mut I) -> Result<Vec<u8>, CommandFault>
    ensures { GivesSuch (λ text. IsTextRead longest_line (I.remaining input.old) text.items) result }
{
    match read_lines(alloc, input, LONGEST_LINE) {
        Ok(lines) => Ok(lines.bytes),
        Err(fault) => Err(fault_of(fault)),
    }
}

/// The same of the file of a path.
fn take_text<S: System>(system: &mut S, path: &str) -> Result<Vec<u8>, CommandFault>
    ensures { ByReads (λ calls. GivesSuch (λ text. IsTextTaken calls path.now text.items) result)
        (S.state system.old) (S.state system.new) }
{
    match system.take_text(path, LONGEST_LINE) {
        Ok(text) => Ok(text),
        Err(fault) => Err(fault_of(fault)),
    }
}

/// A text: that of the file of a path, or of the input where the path is a hyphen. It is read to its
/// end, or up to some place in the first line that is too long for any record.
pub fn read_text<S: System, I: Read>(
    system: &mut S,
    alloc: Global,
    path: &str,
    input: &mut I,
) -> Result<Vec<u8>, CommandFault>
    ensures { ByReads (ReadsTextNamed I.remaining path.now input.old input.new result)
        (S.state system.old) (S.state system.new) }
{
    if path == "-" {
        return read_input_text(alloc, input);
    }
    take_text(system, path)
}

/// How many bytes of a file are asked for, by its first bytes: those of the first page, and of the
/// others that it counts.
fn asked_by(first: &[u8]) -> usize
    ensures { result ≡ asked_by first.now }
{
    if first.len() != PAGE_SIZE {
        return PAGE_SIZE;
    }
    let pages = BigEndian::read_u32(&first[PAGES..PAGES_END]);
    PAGE_SIZE + PAGE_SIZE * pages.saturating_sub(1) as usize
}

/// The first bytes, as many as a page has, or all that there are.
fn first_page(bytes: &[u8]) -> &[u8]
    ensures { result.now ≡ take 4096 bytes.now }
{
    if bytes.len() < PAGE_SIZE {
        bytes
    } else {
        &bytes[..PAGE_SIZE]
    }
}

/// Whether a file begins with this first page.
fn begins_with(bytes: &[u8], first: &[u8]) -> bool
    ensures same { IsTrue result → take 4096 bytes.now ≡ first.now }
    ensures other { result ≡ false → take 4096 bytes.now ≢ first.now }
{
    first_page(bytes) == first
}

/// The bytes of a file, where they begin with its first page, as it was read before.
fn require_first(bytes: Vec<u8>, first: &[u8]) -> Result<Vec<u8>, ReadFault>
    ensures same { IfOk result (λ whole. (whole.items ≡ bytes.items) × (take 4096 bytes.items ≡ first.now)) }
    ensures other { OnErr result (take 4096 bytes.items ≢ first.now) }
{
    if begins_with(bytes.as_slice(), first) {
        Ok(bytes)
    } else {
        Err(ReadFault::Device(Cause::Changed))
    }
}

/// The bytes of the file of a path that its first page counts, as long as no run changes it. The
/// first page is read first. It is told how many bytes have come.
pub fn read_counted<S: System, P: Progress>(
    system: &mut S,
    path: &str,
    progress: &mut P,
) -> Result<Vec<u8>, ReadFault>
    ensures { ByReads (ReadsCounted path.now result) (S.state system.old) (S.state system.new) }
{
    let first = match system.take_shared(path, PAGE_SIZE, &mut Silent) {
        Ok(first) => first,
        Err(fault) => return Err(fault),
    };
    let asked = asked_by(first.as_slice());
    match system.take_shared(path, asked, progress) {
        Ok(bytes) => require_first(bytes, first.as_slice()),
        Err(fault) => Err(fault),
    }
}

/// The first page of the file of a path, or all bytes that it has where they are fewer, as long as
/// no run changes it.
pub fn read_first_page<S: System>(system: &mut S, path: &str) -> Result<Vec<u8>, CommandFault>
    ensures { ByReads (λ calls. GivesSuch (λ bytes.
        calls ≡ taken_shared path.now 4096 (Some bytes.items) ∷ []) result)
        (S.state system.old) (S.state system.new) }
{
    match system.take_shared(path, PAGE_SIZE, &mut Silent) {
        Ok(first) => Ok(first),
        Err(fault) => Err(fault_of(fault)),
    }
}
