//! The records of an open file, one after another.
ghost use Rattle.std.specs.Prelude.{◌≡◌, ◌≤◌, ◌⊎◌, [], length, take, vec_capacity, IfOk, IfErr, IsTrue, IsFalse, true};
ghost use Rattle.std.specs.Prelude.{◌<◌, ◌-◌, false, if◌then◌else◌};
ghost use Rattle.record_text.specs.Lines.{form_header};
ghost use Rattle.record_text.specs.Room.{IsLineRoom};
ghost use Rattle.record_listing.specs.Reading.{CanListFile, BringsOut, WritesOut, IsWritten, HandsOver};
ghost use Rattle.record_listing.specs.Reading.{HoldsRecord, HoldsWhere};

use crate::asked::Asked;
use crate::condition::{Condition, all_hold};
use crate::next::next_record;
use indexed_file::{Found, Library};
use io_state::{Fault, Key, Position};
use record_text::{Form, append_header, append_line, line_room};
use std::alloc::{AllocError, Global};
use std::io::Write;
use streams::{HeldText, Refused, write_text};

/// Why not all lines were written.
#[derive(Clone, Copy, Debug, PartialEq, Eq)]
pub enum RowsFault {
    /// A call of the library gave up, or memory was wanted.
    Library(Fault),
    /// The writer refused a line.
    Output,
}

/// The first bytes of an area, as many of so many as it has.
fn front_of(area: &[u8], size: u16) -> &[u8]
    ensures front { result.now ≡ take size area.now }
    ensures few { length result.now ≤ length area.now }
{
    &area[..usize::from(size).min(area.len())]
}

/// Holds the line of the record in the first bytes of the area. It is put together in `line`, which
/// has room for it.
fn hold_record<W: Write>(
    lines: &mut HeldText,
    line: &mut Vec<u8>,
    form: &Form,
    area: &[u8],
    size: u16,
    out: &mut W,
) -> Result<(), Refused>
    requires room { IsLineRoom form.now (length area.now) (vec_capacity line.old) }
    ensures held { HoldsRecord form.now size area.now (W.contents out.old) (W.contents out.new) lines.old
        lines.new result }
    ensures room { IsLineRoom form.now (length area.now) (vec_capacity line.new) }
{
    line.clear();
    let _ = append_line(line, form, front_of(area, size));
    lines.hold(line.as_slice(), out)
}

/// Holds the line of the record in the first bytes of the area, unless a condition does not hold of it:
/// then nothing is held.
fn hold_where<W: Write>(
    lines: &mut HeldText,
    line: &mut Vec<u8>,
    form: &Form,
    conditions: &[Condition],
    area: &[u8],
    size: u16,
    out: &mut W,
) -> Result<bool, Refused>
    requires room { IsLineRoom form.now (length area.now) (vec_capacity line.old) }
    ensures held { HoldsWhere form.now conditions.now size area.now (W.contents out.old) (W.contents out.new)
        lines.old lines.new result }
    ensures room { IsLineRoom form.now (length area.now) (vec_capacity line.new) }
{
    if !all_hold(conditions, front_of(area, size)) {
        return Ok(false);
    }
    match hold_record(lines, line, form, area, size, out) {
        Ok(()) => Ok(true),
        Err(refused) => Err(refused),
    }
}

/// How many records are still to be listed, behind one that was listed or passed over.
fn left_behind(left: u64, listed: bool) -> u64
    requires { 0 < left }
    ensures { result ≡ (if listed then left - 1 else left) }
{
    if listed { left - 1 } else { left }
}

/// Holds the lines of the records that are asked for, each of which has room in `line`. Where a call
/// of the library gives up, the first of them are held or written.
fn hold_rows<L: Library, W: Write>(
    lib: &mut L,
    asked: Asked,
    form: &Form,
    area: &mut [u8],
    line: &mut Vec<u8>,
    lines: &mut HeldText,
    out: &mut W,
) -> Result<(), RowsFault>
    requires can { CanListFile L.shown lib.old asked.key (length area.old) }
    requires room { IsLineRoom form.now (length area.old) (vec_capacity line.old) }
    requires empty { lines.old ≡ [] }
    ensures brings { BringsOut L.shown asked lib.old lib.new form.now (W.contents out.old)
        (W.contents out.new) lines.new result }
    ensures memory { result ≡ Err (RowsFault.Library Fault.Memory) → IsTrue L.shown.may_want_memory }
{
    let Asked {
        key,
        from,
        to,
        first,
        conditions,
    } = asked;
    let mut position = Position::From(from);
    let mut left = first;
    'more: while left > 0 {
        let found = match next_record(lib, key, &to, &position, area) {
            Ok(Some(found)) => found,
            Ok(None) => return Ok(()),
            Err(fault) => return Err(RowsFault::Library(fault)),
        };
        let conditions = conditions.as_slice();
        match hold_where(lines, line, form, conditions, area, found.length, out) {
            Ok(listed) => {
                position = Position::After(found.key, found.stamp);
                left = left_behind(left, listed);
            }
            Err(_) => return Err(RowsFault::Output),
        }
    }
    Ok(())
}

/// Whether the writer refused a line.
fn is_refused(held: Result<(), RowsFault>) -> bool
    ensures yes { result ≡ true → held ≡ Err RowsFault.Output }
    ensures no { result ≡ false → held ≡ Err RowsFault.Output → ⊥ }
{
    matches!(held, Err(RowsFault::Output))
}

/// Hands the lines that are held to the writer, unless it refused one.
fn hand_over<W: Write>(
    held: Result<(), RowsFault>,
    lines: &mut HeldText,
    out: &mut W,
) -> Result<(), RowsFault>
    ensures written { HandsOver (W.contents out.old) (W.contents out.new) lines.old held result }
    ensures cause { (result ≡ held) ⊎ (result ≡ Err RowsFault.Output) }
{
    if is_refused(held) {
        return held;
    }
    match lines.hand_over(out) {
        Ok(()) => held,
        Err(_) => Err(RowsFault::Output),
    }
}

/// A record area.
fn blank_area(alloc: Global, size: u16) -> Result<Vec<u8>, AllocError>
    ensures { IfOk result (λ area. length area.items ≡ size) }
{
    let mut area = Vec::new(alloc);
    area.resize(usize::from(size), b' ')?;
    Ok(area)
}

/// Writes what stands before the first line.
fn write_header<W: Write>(alloc: Global, form: &Form, out: &mut W) -> Result<(), RowsFault>
    ensures written { IsWritten (form_header form.now) (W.contents out.old) (W.contents out.new) result }
    ensures cause { IfErr result (λ stop. (stop ≡ RowsFault.Output) ⊎ (stop ≡ RowsFault.Library Fault.Memory)) }
    ensures memory { result ≡ Err (RowsFault.Library Fault.Memory) → W.contents out.new ≡ W.contents out.old }
{
    let mut header = Vec::new(alloc);
    if append_header(&mut header, form).is_err() {
        return Err(RowsFault::Library(Fault::Memory));
    }
    match write_text(out, header.as_slice()) {
        Ok(()) => Ok(()),
        Err(_) => Err(RowsFault::Output),
    }
}

/// Writes the list of the records of the open file of unit 0 that are asked for. Where that fails,
/// a front of it may have been written; but where the library itself wants no memory, what the list
/// needs is set aside before its first byte.
pub fn write_rows<L: Library, W: Write>(
    alloc: Global,
    lib: &mut L,
    asked: Asked,
    form: &Form,
    greatest: u16,
    out: &mut W,
) -> Result<(), RowsFault>
    requires { CanListFile L.shown lib.old asked.key greatest }
    ensures writes { WritesOut L.shown asked lib.old lib.new form.now (W.contents out.old)
        (W.contents out.new) result }
    ensures memory { result ≡ Err (RowsFault.Library Fault.Memory) → IsFalse L.shown.may_want_memory
        → W.contents out.new ≡ W.contents out.old }
{
    let Ok(mut area) = blank_area(alloc, greatest) else {
        return Err(RowsFault::Library(Fault::Memory));
    };
    let Ok(mut lines) = HeldText::new(alloc) else {
        return Err(RowsFault::Library(Fault::Memory));
    };
    let Ok(mut line) = line_room(alloc, form, greatest) else {
        return Err(RowsFault::Library(Fault::Memory));
    };
    match write_header(alloc, form, out) {
        Ok(()) => {
            let held = hold_rows(
                lib,
                asked,
                form,
                area.as_mut_slice(),
                &mut line,
                &mut lines,
                out,
            );
            hand_over(held, &mut lines, out)
        }
        Err(stop) => Err(stop),
    }
}
