//! The bytes of one slot of a heap page.
//!
//! A slot in use:
//!
//! | Bytes | Content |
//! |---|---|
//! | 0 | `01` |
//! | 1 to 2, where lengths vary | length of the record |
//! | then | stamps, 8 bytes each |
//! | then | record |
//!
//! A free slot:
//!
//! | Bytes | Content |
//! |---|---|
//! | 0 | `00` |
//! | 1 to 4 | page of the next free slot, 0 at the end of the chain |
//! | 5 to 6 | slot of the next free slot |

ghost use Rattle.std.specs.Prelude.{◌≡◌, ◌≤◌, ◌<◌, ◌+◌, ◌++◌, ℕ, Some, IfSome, length, option_map};
ghost use Rattle.record_heap.specs.Slot.{head, size, length_in_slot, is_used, used_in, record_in, behind_in};
ghost use Rattle.record_heap.specs.Slot.{over_front, HoldsNow, FitsIn, FitsVarying, FitsFixed, MayFetch};

use crate::shape::{Place, SlotShape};
use byteorder::{BigEndian, ByteOrder};

/// The mark of a free slot.
const FREE: u8 = 0;

/// The mark of a slot in use.
const USED: u8 = 1;

/// The length of a record, where lengths vary.
const LENGTH: usize = 1;

const LENGTH_END: usize = 3;

/// The place of the next free slot.
const NEXT_PAGE: usize = 1;

const NEXT_PAGE_END: usize = 5;

const NEXT_SLOT: usize = 5;

const NEXT_SLOT_END: usize = 7;

/// The length of the record.
fn record_length(slot: &[u8], shape: SlotShape) -> usize
    requires { size shape ≤ length slot.now }
    ensures { result ≡ length_in_slot shape slot.now }
{
    if shape.least < shape.greatest {
        BigEndian::read_u16(&slot[LENGTH..]) as usize
    } else {
        shape.greatest as usize
    }
}

/// The slot is in use, with a record of a length that the heap takes.
pub fn is_used(slot: &[u8], shape: SlotShape) -> bool
    requires { size shape ≤ length slot.now }
    ensures { result ≡ is_used shape slot.now }
{
    let record = record_length(slot, shape);
    slot[0] == USED && shape.least as usize <= record && record <= shape.greatest as usize
}

/// The stamps and the record of a slot in use.
pub fn used(slot: &[u8], shape: SlotShape) -> Option<&[u8]>
    requires { size shape ≤ length slot.now }
    ensures value { option_map (λ bytes. bytes.now) result ≡ used_in shape slot.now }
    ensures least { IfSome result (λ bytes. shape.stamps + shape.least ≤ length bytes.now) }
    ensures greatest { IfSome result (λ bytes. length bytes.now ≤ shape.stamps + shape.greatest) }
{
    if !is_used(slot, shape) {
        return None;
    }
    let head = shape.head();
    let n = shape.stamps as usize + record_length(slot, shape);
    Some(&slot[head..head + n])
}

/// The stamps and the record go to the front of `to`, the rest of which stays. The answer is how
/// many bytes they are; none where the slot is not in use.
pub fn fetch(slot: &[u8], shape: SlotShape, to: &mut [u8]) -> Option<usize>
    requires { MayFetch shape slot.now to.old (shape.stamps + shape.greatest) }
    ensures value { result ≡ option_map length (used_in shape slot.now) }
    ensures to { to.new ≡ over_front (used_in shape slot.now) to.old }
{
    match used(slot, shape) {
        None => None,
        Some(bytes) => {
            to[..bytes.len()].copy_from_slice(bytes);
            Some(bytes.len())
        }
    }
}

/// The record goes to the front of `to`, the rest of which stays, and the stamps in front of it are
/// left out. The answer is its length; none where the slot is not in use.
pub fn fetch_record(slot: &[u8], shape: SlotShape, to: &mut [u8]) -> Option<usize>
    requires { MayFetch shape slot.now to.old shape.greatest }
    ensures value { result ≡ option_map length (record_in shape slot.now) }
    ensures greatest { IfSome result (λ n. n ≤ shape.greatest) }
    ensures to { to.new ≡ over_front (record_in shape slot.now) to.old }
{
    match used(slot, shape) {
        None => None,
        Some(bytes) => {
            let record = &bytes[shape.stamps as usize..];
            to[..record.len()].copy_from_slice(record);
            Some(record.len())
        }
    }
}

/// The slot behind a free one.
pub fn behind(slot: &[u8]) -> Option<Place>
    requires { 7 ≤ length slot.now }
    ensures { result ≡ behind_in slot.now }
{
    if slot[0] != FREE {
        return None;
    }
    let page = BigEndian::read_u32(&slot[NEXT_PAGE..]);
    let slot = BigEndian::read_u16(&slot[NEXT_SLOT..]);
    Some(Place { page, slot })
}

/// Makes the slot free, with another behind it.
pub fn write_free(slot: &mut [u8], next: Place)
    requires { 7 ≤ length slot.old }
    ensures free { behind_in slot.new ≡ Some next }
    ensures long { length slot.new ≡ length slot.old }
{
    slot[0] = FREE;
    BigEndian::write_u32(&mut slot[NEXT_PAGE..NEXT_PAGE_END], next.page);
    BigEndian::write_u16(&mut slot[NEXT_SLOT..NEXT_SLOT_END], next.slot);
}

/// Puts stamps and a record into the slot.
pub fn write_used(slot: &mut [u8], shape: SlotShape, stamps: &[u8], record: &[u8])
    requires { FitsIn shape slot.old stamps.now «record».now }
    ensures { HoldsNow shape slot.old slot.new (stamps.now ++ «record».now) }
{
    if shape.least < shape.greatest {
        write_varying(slot, shape, stamps, record);
    } else {
        write_fixed(slot, shape, stamps, record);
    }
}

/// The slot of a record with its length.
fn write_varying(slot: &mut [u8], shape: SlotShape, stamps: &[u8], record: &[u8])
    requires { FitsVarying shape slot.old stamps.now «record».now }
    ensures { HoldsNow shape slot.old slot.new (stamps.now ++ «record».now) }
{
    slot[0] = USED;
    BigEndian::write_u16(&mut slot[LENGTH..LENGTH_END], record.len() as u16);
    let end = LENGTH_END + stamps.len() + record.len();
    write_both(&mut slot[LENGTH_END..end], stamps, record);
}

/// The slot of a record of the one length.
fn write_fixed(slot: &mut [u8], shape: SlotShape, stamps: &[u8], record: &[u8])
    requires { FitsFixed shape slot.old stamps.now «record».now }
    ensures { HoldsNow shape slot.old slot.new (stamps.now ++ «record».now) }
{
    slot[0] = USED;
    let end = 1 + stamps.len() + record.len();
    write_both(&mut slot[1..end], stamps, record);
}

/// The stamps, and the record behind them.
fn write_both(to: &mut [u8], stamps: &[u8], record: &[u8])
    requires { length to.old ≡ length stamps.now + length «record».now }
    ensures { to.new ≡ stamps.now ++ «record».now }
{
    let (front, rest) = to.split_at_mut(stamps.len());
    front.copy_from_slice(stamps);
    rest.copy_from_slice(record);
}
