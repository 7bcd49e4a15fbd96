//! The entries that a tree is filled with.

use std::alloc::{AllocError, Global};
use tree_node::NodeShape;

/// A key of 18 bytes, and six bytes more.
pub const SHAPE: NodeShape = NodeShape {
    key: 0,
    width: 18,
    entry: 24,
};

/// The factors that mix the entries which fill the tree, and those of the calls behind.
pub const FILLING: u64 = 7919;

pub const CALLING: u64 = 6271;

/// The bytes of an entry.
pub type Bytes = [u8; 24];

/// The entry of a number: 18 digits, and the number's lowest six bytes.
fn entry_of(number: u64) -> Bytes {
    let mut entry = [b'0'; 24];
    let mut rest = number;
    for place in 0..18usize {
        entry[17 - place] = b'0' + (rest % 10) as u8;
        rest /= 10;
    }
    entry[18..].copy_from_slice(&number.to_be_bytes()[2..]);
    entry
}

/// The entries of `count` numbers, each once where the factor has no divisor in common with
/// `count`. Memory is the only fault.
pub fn mixed(alloc: Global, count: u64, factor: u64) -> Result<Vec<Bytes>, AllocError> {
    let mut entries = Vec::new(alloc);
    for i in 0..count {
        let place = i.wrapping_mul(factor) % count.max(1);
        entries.push(entry_of(place.wrapping_mul(4999)))?;
    }
    Ok(entries)
}
