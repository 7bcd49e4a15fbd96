//! The stamps before a record.

ghost use Rattle.std.specs.Prelude.{◌≡◌, ◌≤◌, ◌<◌, ◌↔◌, IsTrue, length, slice_index};
ghost use Rattle.open_file.specs.Stored.{stamps_length};
ghost use Rattle.open_file.specs.ReadOff.{stamps_off};
ghost use Rattle.file_checker.specs.Leading.{are_stamps_off};

use byteorder::{BigEndian, ByteOrder};
use record_layout::KeyPart;

/// The bytes of a stamp.
const STAMP: usize = 8;

/// Each stamp of a duplicates key is from 1 to below the next one.
pub fn are_stamps(parts: &[KeyPart], bytes: &[u8], next: u64) -> bool
    requires { stamps_length parts.now ≤ length bytes.now }
    ensures { IsTrue result ↔ IsTrue (are_stamps_off parts.now next bytes.now) }
{
    let mut rest = bytes;
    for part in parts {
        if part.has_duplicates() {
            let stamp = BigEndian::read_u64(rest);
            if stamp < 1 || next <= stamp {
                return false;
            }
            rest = &rest[STAMP..];
        }
    }
    true
}

/// The stamp in the key of part `i`, 0 in a unique one.
pub fn stamp_at(parts: &[KeyPart], bytes: &[u8], i: usize) -> u64
    requires part { i < length parts.now }
    requires long { stamps_length parts.now ≤ length bytes.now }
    ensures { result ≡ slice_index (stamps_off parts.now bytes.now) i }
{
    let mut rest = bytes;
    for part in &parts[..i] {
        if part.has_duplicates() {
            rest = &rest[STAMP..];
        }
    }
    if parts[i].has_duplicates() {
        BigEndian::read_u64(rest)
    } else {
        0
    }
}
