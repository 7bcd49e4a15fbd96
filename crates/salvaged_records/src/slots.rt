//! The slots of a page.
//!
//! | Bytes | Content |
//! |---|---|
//! | 0 | `H` |
//! | 1 to 3 | zero |
//! | 4 to 7 | next heap page, 0 at the end of the chain |
//! | 8 to 15 | zero |
//! | from 16 | as many slots of one size as fit |
ghost use Rattle.std.specs.Prelude.{◌≡◌, ◌+◌, ◌≤◌, ◌<◌, length, IfSome};
ghost use Rattle.std.specs.Option.{option_copied};
ghost use Rattle.record_heap.specs.Slot.{room, size, length_in_slot, used_in, record_in};
ghost use Rattle.record_heap.specs.Slots.{slot_at, start_of};
ghost use Rattle.salvaged_records.specs.Slots.{is_heap_page, record_at};

use byteorder::{BigEndian, ByteOrder};
use pages::PAGE_SIZE;
use record_heap::SlotShape;

/// The mark of a slot in use.
const USED: u8 = 1;

/// The length of a record, where lengths vary.
const LENGTH: usize = 1;

/// The next heap page.
const NEXT: usize = 4;

const NEXT_END: usize = 8;

/// Where the slots begin.
const FIRST_SLOT: usize = 16;

/// The first bytes of a heap page before this one.
fn start_of(next: u32) -> [u8; FIRST_SLOT]
    ensures { result ≡ start_of next }
{
    let mut start = [0; FIRST_SLOT];
    start[0] = b'H';
    BigEndian::write_u32(&mut start[NEXT..NEXT_END], next);
    start
}

/// Whether the page begins as a heap page does.
pub fn is_heap_page(page: &[u8; PAGE_SIZE]) -> bool
    ensures { result ≡ is_heap_page page.now }
{
    let next = BigEndian::read_u32(&page[NEXT..NEXT_END]);
    page[..FIRST_SLOT] == start_of(next)[..]
}

/// The length of the record in a slot in use.
fn record_length(slot: &[u8], shape: SlotShape) -> usize
    requires { size shape ≤ length slot.now }
    ensures { result ≡ length_in_slot shape slot.now }
{
    if shape.least < shape.greatest {
        BigEndian::read_u16(&slot[LENGTH..]) as usize
    } else {
        shape.greatest as usize
    }
}

/// The stamps and the record in a slot, where it is in use.
fn stored_in<'a>(slot: &'a [u8], shape: SlotShape) -> Option<&'a [u8]>
    requires { size shape ≤ length slot.now }
    ensures value { option_copied result ≡ used_in shape slot.now }
    ensures least { IfSome result (λ stored. shape.stamps ≤ length stored.now) }
    ensures most { IfSome result (λ stored. length stored.now ≤ shape.stamps + shape.greatest) }
{
    let record = record_length(slot, shape);
    let is_long = shape.least as usize <= record && record <= shape.greatest as usize;
    if slot[0] != USED || !is_long {
        return None;
    }
    let head = shape.head();
    Some(&slot[head..head + (shape.stamps as usize + record)])
}

/// The record in a slot, where it is in use.
fn record_in<'a>(slot: &'a [u8], shape: SlotShape) -> Option<&'a [u8]>
    requires { size shape ≤ length slot.now }
    ensures value { option_copied result ≡ record_in shape slot.now }
    ensures most { IfSome result (λ bytes. length bytes.now ≤ shape.greatest) }
{
    match stored_in(slot, shape) {
        Some(stored) => Some(&stored[shape.stamps as usize..]),
        None => None,
    }
}

/// The bytes of slot `i`.
fn slot(page: &[u8; PAGE_SIZE], shape: SlotShape, i: usize) -> &[u8]
    requires { i < room shape }
    ensures value { result.now ≡ slot_at shape page.now i }
    ensures len { length result.now ≡ size shape }
{
    let size = shape.size();
    let at = FIRST_SLOT + i * size;
    &page[at..at + size]
}

/// The record in slot `i`, where it is in use.
pub fn record_at(page: &[u8; PAGE_SIZE], shape: SlotShape, i: usize) -> Option<&[u8]>
    requires { i < room shape }
    ensures value { option_copied result ≡ record_at shape page.now i }
    ensures most { IfSome result (λ bytes. length bytes.now ≤ shape.greatest) }
{
    record_in(slot(page, shape, i), shape)
}
