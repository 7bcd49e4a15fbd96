//! Tree keys made of values and stamps.

ghost use Rattle.std.specs.Prelude.{◌≡◌, ◌+◌, ◌≤◌, ◌++◌, length, replicate};
ghost use Rattle.byteorder.specs.Endian.{big_bytes};
ghost use Rattle.key_index.specs.Keys.{greatest_key};

use byteorder::{BigEndian, ByteOrder};
use tree_node::TreeKey;

/// The greatest bytes of a tree key.
const GREATEST: [u8; 258] = [255; 258];

/// The tree key of a value and stamp.
pub fn rank_key(value: &[u8], stamp: u64) -> TreeKey
    requires { length value.now ≤ 250 }
    ensures { result.items ≡ value.now ++ big_bytes 8 stamp }
{
    let mut bytes = [0; 8];
    BigEndian::write_u64(&mut bytes, stamp);
    let mut key = TreeKey::new();
    let _ = key.try_extend_from_slice(value);
    let _ = key.try_extend_from_slice(&bytes);
    key
}

/// The greatest tree key of `long` bytes that begins as a value of `width` bytes does which begins
/// with these.
pub fn greatest_key(start: &[u8], width: usize, long: usize) -> TreeKey
    requires width { width ≤ long }
    requires long { long ≤ 258 }
    ensures { result.items ≡ greatest_key width long start.now }
{
    let first = &start[..start.len().min(width)];
    let mut key = TreeKey::new();
    let _ = key.try_extend_from_slice(first);
    fill(&mut key, long - first.len());
    key
}

/// Puts the greatest byte so many times behind a tree key.
fn fill(key: &mut TreeKey, count: usize)
    requires { length key.old.items + count ≤ 258 }
    ensures { key.new.items ≡ key.old.items ++ replicate count 255 }
{
    let _ = key.try_extend_from_slice(&GREATEST[..count]);
}
