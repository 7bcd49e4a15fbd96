//! The first bytes of a reader.
ghost use Rattle.std.specs.Prelude.{◌≡◌, ◌≤◌, length, IfOk};
ghost use Rattle.std.specs.Io.KnownBytes.{Consumes};
ghost use Rattle.system_files.specs.Front.{IsFrontRead, FillsRoom};

use crate::calls::{MOST_INTERRUPTED, is_interrupted};
use crate::cause::Cause;
use std::alloc::Global;
use std::io::{ErrorKind, Read};
use thiserror::Error;

/// The bytes that are asked for at a call.
const AT_ONCE: usize = 4096;

/// Why the bytes of a file did not come.
#[derive(Clone, Copy, Debug, PartialEq, Eq, Error)]
pub enum ReadFault {
    #[error("{0}")]
    Device(Cause),
    #[error("memory ran out")]
    Memory,
}

/// Reads a part, and answers how many bytes came: none at the end.
fn read_part<R: Read>(reader: &mut R, part: &mut [u8]) -> Result<usize, ReadFault>
    ensures { FillsRoom (R.remaining reader.old) (R.remaining reader.new) part.old part.new result }
{
    for _ in 0..MOST_INTERRUPTED {
        match reader.read(part) {
            Ok(n) => return Ok(n),
            Err(error) => {
                if !is_interrupted(&error) {
                    return Err(ReadFault::Device(Cause::of(error)));
                }
            }
        }
    }
    Err(ReadFault::Device(Cause::Other(ErrorKind::Interrupted)))
}

/// The bytes of a reader to its end, or so many of the first ones.
pub fn read_front<R: Read>(alloc: Global, reader: &mut R, most: usize) -> Result<Vec<u8>, ReadFault>
    ensures bytes { IfOk result (λ bytes. IsFrontRead most (R.remaining reader.old) bytes.items) }
    ensures taken { IfOk result (λ bytes.
        Consumes (R.remaining reader.old) (R.remaining reader.new) bytes.items) }
    ensures within { IfOk result (λ bytes. length bytes.items ≤ most) }
{
    let mut bytes = Vec::new(alloc);
    let mut part = [0; AT_ONCE];
    'more: while bytes.len() < most {
        let wanted = AT_ONCE.min(most - bytes.len());
        let n = read_part(reader, &mut part[..wanted])?;
        if n == 0 {
            return Ok(bytes);
        }
        bytes
            .extend_from_slice(&part[..n])
            .map_err(|_| ReadFault::Memory)?;
    }
    Ok(bytes)
}
