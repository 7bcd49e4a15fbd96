//! The entries that are put in and looked for.

ghost use Rattle.std.specs.Prelude.{◌≡◌, ◌≤◌, length};

use byteorder::{BigEndian, ByteOrder};
use std::alloc::{AllocError, Global};

/// The tree key of an entry.
pub fn key_of<const WIDTH: usize, const ENTRY: usize>(entry: &[u8; ENTRY]) -> &[u8] {
    entry.get(..WIDTH).unwrap_or(&[])
}

/// An entry whose tree key ends in this number. Every other byte is zero.
fn entry_of<const WIDTH: usize, const ENTRY: usize>(number: u64) -> [u8; ENTRY]
    requires number { 8 ≤ WIDTH }
    requires key { WIDTH ≤ ENTRY }
{
    let mut entry = [0; ENTRY];
    let bytes = &mut entry[..];
    BigEndian::write_u64(&mut bytes[WIDTH - 8..WIDTH], number);
    entry
}

/// So many entries in no order, the same ones at each call.
pub fn mixed_entries<const WIDTH: usize, const ENTRY: usize>(
    alloc: Global,
    count: usize,
) -> Result<Vec<[u8; ENTRY]>, AllocError>
    requires number { 8 ≤ WIDTH }
    requires key { WIDTH ≤ ENTRY }
{
    let mut entries = Vec::new(alloc);
    let mut number = 1u64;
    for _ in 0..count {
        number = number
            .wrapping_mul(6364136223846793005)
            .wrapping_add(1442695040888963407);
        entries.push(entry_of::<WIDTH, ENTRY>(number))?;
    }
    Ok(entries)
}
