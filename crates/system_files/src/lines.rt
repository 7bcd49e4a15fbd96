//! The lines of a reader.
ghost use Rattle.std.specs.Prelude.{◌≡◌, ◌≤◌, ◌<◌, false, IfOk};
ghost use Rattle.system_files.specs.Front.{IsTextRead, EndsInLongLine};

use crate::front::{ReadFault, read_front};
use std::alloc::Global;
use std::io::Read;

/// More parts than memory could ever hold.
const MOST_PARTS: u64 = 1 << 44;

const LINE_FEED: u8 = b'\n';

/// Lines that a reader gave, and whether they are all that it had.
#[derive(Drop)]
pub struct Lines {
    pub bytes: Vec<u8>,
    pub is_whole: bool,
}

/// The lines that a reader has: all of them, or a front that ends in the midst of one that has at
/// least `longest` bytes.
pub fn read_lines<R: Read>(
    alloc: Global,
    reader: &mut R,
    longest: usize,
) -> Result<Lines, ReadFault>
    ensures text { IfOk result (λ lines. IsTextRead longest (R.remaining reader.old) lines.bytes.items) }
    ensures long { IfOk result (λ lines. lines.is_whole ≡ false → EndsInLongLine longest lines.bytes.items) }
{
    let mut bytes = Vec::new(alloc);
    for _ in 0..MOST_PARTS {
        let part = read_front(alloc, reader, longest)?;
        bytes
            .extend_from_slice(part.as_slice())
            .map_err(|_| ReadFault::Memory)?;
        if part.len() < longest {
            return Ok(Lines {
                bytes,
                is_whole: true,
            });
        }
        if !part.as_slice().contains(&LINE_FEED) {
            return Ok(Lines {
                bytes,
                is_whole: false,
            });
        }
    }
    Err(ReadFault::Memory)
}
