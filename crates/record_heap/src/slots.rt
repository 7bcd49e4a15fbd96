//! The slots of a heap page.
//!
//! | Bytes | Content |
//! |---|---|
//! | 0 | `H` |
//! | 1 to 3 | zero |
//! | 4 to 7 | next heap page, 0 at the end of the chain |
//! | 8 to 15 | zero |
//! | from 16 | as many slots of one size as fit |

ghost use Rattle.std.specs.Prelude.{◌≡◌, ◌<◌, ◌+◌, ◌++◌, ℕ, Some, take};
ghost use Rattle.record_heap.specs.Slot.{room, size, used_in, behind_in, FitsSlot};
ghost use Rattle.record_heap.specs.Slots.{slot_at, start_of, behind_new, AreLinked, Edits, IsSlotAt};
ghost use Rattle.record_heap.specs.Slots.{IsNewPage};

use crate::shape::{Place, SlotShape};
use crate::slot;
use byteorder::{BigEndian, ByteOrder};
use pages::PAGE_SIZE;

/// The next heap page.
pub const NEXT: usize = 4;

pub const NEXT_END: usize = 8;

/// Where the slots begin.
pub const FIRST_SLOT: usize = 16;

/// The bytes of slot `i`.
pub fn slot(page: &[u8; PAGE_SIZE], shape: SlotShape, i: usize) -> &[u8]
    requires { i < room shape }
    ensures { IsSlotAt shape page.now i result.now }
{
    let size = shape.size();
    let at = FIRST_SLOT + i * size;
    &page[at..at + size]
}

/// Makes slot `i` free, with another behind it.
pub fn put_free(page: &mut [u8; PAGE_SIZE], shape: SlotShape, i: usize, next: Place)
    requires { i < room shape }
    ensures { Edits shape page.old page.new i (λ slot. behind_in slot ≡ Some next) }
{
    let size = shape.size();
    let at = FIRST_SLOT + i * size;
    slot::write_free(&mut page[at..at + size], next);
}

/// Puts stamps and a record into slot `i`.
pub fn put_used(
    page: &mut [u8; PAGE_SIZE],
    shape: SlotShape,
    i: usize,
    stamps: &[u8],
    record: &[u8],
)
    requires slot { i < room shape }
    requires fits { FitsSlot shape stamps.now «record».now }
    ensures { Edits shape page.old page.new i (λ slot.
        used_in shape slot ≡ Some (stamps.now ++ «record».now)) }
{
    let size = shape.size();
    let at = FIRST_SLOT + i * size;
    slot::write_used(&mut page[at..at + size], shape, stamps, record);
}

/// Makes the page the heap page `n` before the page `next`, with all its slots free.
pub fn new_page(page: &mut [u8; PAGE_SIZE], shape: SlotShape, n: u32, next: u32)
    ensures { IsNewPage shape n next page.new }
{
    write_start(page, next);
    link_all(page, shape, n);
}

/// Writes the bytes before the slots.
fn write_start(page: &mut [u8; PAGE_SIZE], next: u32)
    ensures { take 16 page.new ≡ start_of next }
{
    page[..FIRST_SLOT].copy_from_slice(&start_of(next));
}

/// The bytes before the slots.
pub fn start_of(next: u32) -> [u8; FIRST_SLOT]
    ensures { result ≡ start_of next }
{
    let mut start = [0; FIRST_SLOT];
    start[0] = b'H';
    BigEndian::write_u32(&mut start[NEXT..NEXT_END], next);
    start
}

/// Makes all slots of page `n` free, each with the one after it behind it.
fn link_all(page: &mut [u8; PAGE_SIZE], shape: SlotShape, n: u32)
    ensures linked { AreLinked shape n (room shape) page.new }
    ensures start { take 16 page.new ≡ take 16 page.old }
{
    let room = shape.room();
    for i in 0..room {
        put_free(page, shape, i, place_behind(n, room, i));
    }
}

/// The place behind slot `i` of page `n`, where all its slots are free.
fn place_behind(n: u32, room: usize, i: usize) -> Place
    requires few { room < 65536 }
    requires slot { i < room }
    ensures { result ≡ behind_new room n i }
{
    if i + 1 < room {
        Place {
            page: n,
            slot: (i + 1) as u16,
        }
    } else {
        Place { page: 0, slot: 0 }
    }
}
