//! The lines of the records in slots.
ghost use Rattle.std.specs.Prelude.{◌≡◌, ◌≤◌, ◌<◌, ◌+◌, ◌^◌, [], ◌∷◌, ◌++◌, length, vec_capacity, IfOk, OnOk};
ghost use Rattle.pages.specs.Source.{KeepsItsPages, OfItsPages};
ghost use Rattle.record_heap.specs.Slot.{room};
ghost use Rattle.record_text.specs.Lines.{form_header};
ghost use Rattle.record_text.specs.Room.{IsLineRoom};
ghost use Rattle.streams.specs.Output.{HoldsText};
ghost use Rattle.salvaged_records.specs.Slots.{found_slot, record_at, slots_of_page, slots_to, with_slot};
ghost use Rattle.salvaged_records.specs.Leads.{lead_header};
ghost use Rattle.salvaged_records.specs.Lines.{salvaged_line};
ghost use Rattle.salvaged_records.specs.Writing.{HandsAll, HoldsAll, HoldsSlots, WritesAllSlots, is_of_kind};

use crate::held_lines::HeldLines;
use crate::lead::{Lead, lead_header, lead_text_of};
use crate::slot_list::{SlotKind, SlotList};
use crate::slots::is_heap_page;
use crate::telling::{is_slot_kept, is_told};
use crate::used_slot::UsedSlot;
use crate::visiting::{MOST_PAGES, slot_of};
use pages::{PAGE_SIZE, PageSource};
use record_heap::SlotShape;
use record_listing::ListFault;
use record_text::{Form, append_header, append_line, line_room};
use std::alloc::{AllocError, Global};
use std::io::Write;
use streams::{HeldText, Refused};

/// The most bytes of a record in a slot.
const MOST: u16 = 4077;

/// Holds the line of the record in a slot, which is put together in `line`.
fn hold_slot<W: Write>(
    lines: &mut HeldText,
    line: &mut Vec<u8>,
    form: &Form,
    lead: Lead,
    slot: &UsedSlot<'_>,
    out: &mut W,
) -> Result<(), Refused>
    requires room { IsLineRoom form.now 4077 (vec_capacity line.old) }
    ensures held { OnOk result (HoldsText (W.contents out.old) (W.contents out.new) lines.old lines.new
        (salvaged_line lead form.now (found_slot slot.now))) }
    ensures room { IsLineRoom form.now 4077 (vec_capacity line.new) }
{
    let text = lead_text_of(lead, form, slot);
    line.clear();
    let _ = append_line(line, form, slot.bytes);
    match lines.hold(text.as_slice(), out) {
        Ok(()) => lines.hold(line.as_slice(), out),
        Err(refused) => Err(refused),
    }
}

/// Whether a slot is one of those that are written.
fn is_listed(list: &SlotList<'_>, slot: &UsedSlot<'_>) -> bool
    ensures { result ≡ is_of_kind list.now.kind list.now.doubts.now (found_slot slot.now) }
{
    match list.kind {
        SlotKind::Kept => is_slot_kept(list.doubts, slot),
        SlotKind::Told => is_told(list.doubts, slot),
    }
}

/// Holds the line of a slot, if it is one of those that are written.
fn hold_listed<W: Write>(
    list: &SlotList<'_>,
    held: &mut HeldLines,
    slot: &UsedSlot<'_>,
    out: &mut W,
) -> Result<(), Refused>
    requires room { IsLineRoom list.now.form.now 4077 (vec_capacity held.old.line) }
    requires few { held.old.count < 2 ^ 63 }
    ensures held { OnOk result (HoldsSlots list.now (W.contents out.old) (W.contents out.new) held.old held.new
        (found_slot slot.now ∷ [])) }
    ensures few { held.new.count ≤ held.old.count + 1 }
{
    if !is_listed(list, slot) {
        return Ok(());
    }
    hold_slot(
        &mut held.lines,
        &mut held.line,
        list.form,
        list.lead,
        slot,
        out,
    )?;
    held.count += 1;
    Ok(())
}

/// Holds the line of slot `i` of page `n`, if it is in use and one of those that are written.
fn hold_found<W: Write>(
    list: &SlotList<'_>,
    held: &mut HeldLines,
    page: &[u8; PAGE_SIZE],
    shape: SlotShape,
    n: usize,
    i: usize,
    out: &mut W,
) -> Result<(), Refused>
    requires slot { i < room shape }
    requires room { IsLineRoom list.now.form.now 4077 (vec_capacity held.old.line) }
    requires few { held.old.count < 2 ^ 63 }
    ensures held { OnOk result (HoldsSlots list.now (W.contents out.old) (W.contents out.new) held.old held.new
        (with_slot [] n i (record_at shape page.now i))) }
    ensures few { held.new.count ≤ held.old.count + 1 }
{
    match slot_of(page, shape, n, i) {
        Some(slot) => hold_listed(list, held, &slot, out),
        None => Ok(()),
    }
}

/// Holds the lines of those slots of page `n`, which is a heap page, that are written.
fn hold_slots<W: Write>(
    list: &SlotList<'_>,
    held: &mut HeldLines,
    page: &[u8; PAGE_SIZE],
    shape: SlotShape,
    n: usize,
    out: &mut W,
) -> Result<(), Refused>
    requires room { IsLineRoom list.now.form.now 4077 (vec_capacity held.old.line) }
    requires few { held.old.count ≤ 2 ^ 62 }
    ensures held { OnOk result (HoldsSlots list.now (W.contents out.old) (W.contents out.new) held.old held.new
        (slots_to shape page.now n (room shape))) }
    ensures few { OnOk result (held.new.count ≤ held.old.count + 65536) }
{
    for i in 0..shape.room() {
        hold_found(list, held, page, shape, n, i, out)?;
    }
    Ok(())
}

/// Holds the lines of those slots of page `n` that are written, if it is a heap page.
fn hold_page<W: Write>(
    list: &SlotList<'_>,
    held: &mut HeldLines,
    page: &[u8; PAGE_SIZE],
    shape: SlotShape,
    n: usize,
    out: &mut W,
) -> Result<(), Refused>
    requires room { IsLineRoom list.now.form.now 4077 (vec_capacity held.old.line) }
    requires few { held.old.count ≤ 2 ^ 62 }
    ensures held { OnOk result (HoldsSlots list.now (W.contents out.old) (W.contents out.new) held.old held.new
        (slots_of_page shape page.now n)) }
    ensures few { OnOk result (held.new.count ≤ held.old.count + 65536) }
{
    if !is_heap_page(page) {
        return Ok(());
    }
    hold_slots(list, held, page, shape, n, out)
}

/// Holds the lines of those slots of all pages that are written.
fn hold_all<P: PageSource, W: Write>(
    pages: &mut P,
    shape: SlotShape,
    list: &SlotList<'_>,
    held: &mut HeldLines,
    out: &mut W,
) -> Result<(), Refused>
    requires few { OfItsPages P.has pages.old (λ list. length list ≤ 2 ^ 32) }
    requires room { IsLineRoom list.now.form.now 4077 (vec_capacity held.old.line) }
    requires none { held.old.count ≡ 0 }
    ensures held { OfItsPages P.has pages.new (HoldsAll list.now shape (W.contents out.old) (W.contents out.new)
        held.old held.new result) }
    ensures before { KeepsItsPages P.has pages.old pages.new }
{
    for n in 0..MOST_PAGES {
        let Some(page) = pages.page(n as u32) else {
            return Ok(());
        };
        hold_page(list, held, &page, shape, n as usize, out)?;
    }
    Ok(())
}

/// What stands before the first line.
fn header_of(alloc: Global, form: &Form, lead: Lead) -> Result<Vec<u8>, AllocError>
    ensures { IfOk result (λ header. header.items ≡ lead_header lead form.now ++ form_header form.now) }
{
    let mut header = Vec::from_slice(alloc, lead_header(lead, form))?;
    append_header(&mut header, form)?;
    Ok(header)
}

/// Holds the lines of those slots of all pages that are written behind those that are held, hands all of
/// them over, and answers how many they are.
fn hand_slots<P: PageSource, W: Write>(
    pages: &mut P,
    shape: SlotShape,
    list: &SlotList<'_>,
    held: HeldLines,
    out: &mut W,
) -> Result<u64, Refused>
    requires few { OfItsPages P.has pages.old (λ list. length list ≤ 2 ^ 32) }
    requires room { IsLineRoom list.now.form.now 4077 (vec_capacity held.line) }
    requires none { held.count ≡ 0 }
    ensures handed { OfItsPages P.has pages.new (HandsAll list.now shape (W.contents out.old)
        (W.contents out.new) held.lines result) }
    ensures before { KeepsItsPages P.has pages.old pages.new }
{
    let mut held = held;
    match hold_all(pages, shape, list, &mut held, out) {
        Ok(()) => match held.lines.hand_over(out) {
            Ok(()) => Ok(held.count),
            Err(refused) => Err(refused),
        },
        Err(refused) => Err(refused),
    }
}

/// Writes the list of those slots of all pages that are written, page by page: what stands before the
/// first line, and a line for each; and answers how many they are.
///
/// `Output`: the writer refused a part; a front of the list may have been written. `Memory`: nothing was
/// written.
pub fn write_slots<P: PageSource, W: Write>(
    alloc: Global,
    pages: &mut P,
    shape: SlotShape,
    list: &SlotList<'_>,
    out: &mut W,
) -> Result<u64, ListFault>
    requires few { OfItsPages P.has pages.old (λ list. length list ≤ 2 ^ 32) }
    ensures written { OfItsPages P.has pages.new (WritesAllSlots list.now shape (W.contents out.old)
        (W.contents out.new) result) }
    ensures before { KeepsItsPages P.has pages.old pages.new }
    ensures memory { result ≡ Err ListFault.Memory → W.contents out.new ≡ W.contents out.old }
{
    let Ok(mut lines) = HeldText::new(alloc) else {
        return Err(ListFault::Memory);
    };
    let Ok(line) = line_room(alloc, list.form, MOST) else {
        return Err(ListFault::Memory);
    };
    let Ok(header) = header_of(alloc, list.form, list.lead) else {
        return Err(ListFault::Memory);
    };
    let Ok(()) = lines.hold(header.as_slice(), out) else {
        return Err(ListFault::Output);
    };
    let held = HeldLines {
        lines,
        line,
        count: 0,
    };
    match hand_slots(pages, shape, list, held, out) {
        Ok(count) => Ok(count),
        Err(_) => Err(ListFault::Output),
    }
}
