//! The stamps of a new record, which the heap keeps in front of it.

ghost use Rattle.std.specs.Prelude.{◌≡◌, ◌+◌, ◌≤◌, ◌++◌, length};
ghost use Rattle.byteorder.specs.Endian.{big_bytes};
ghost use Rattle.open_file.specs.Stands.{IsShaped};
ghost use Rattle.file_changes.specs.Old.{AreNewStamps};

use crate::key_number::number_of;
use arrayvec::ArrayVec;
use byteorder::{BigEndian, ByteOrder};
use open_file::OpenFile;

/// The stamps of a new record, eight bytes for each alternate key of duplicates.
pub(crate) fn new_stamps(opened: &OpenFile) -> ArrayVec<u8, 64>
    requires { IsShaped opened.now }
    ensures { AreNewStamps opened.now result.items }
{
    let mut stamps = ArrayVec::new();
    for j in 0..opened.alternate_count() {
        if opened.part(number_of(j)).has_duplicates() {
            push_stamp(&mut stamps, opened.next_stamp());
        }
    }
    stamps
}

/// Puts one more stamp behind others.
pub(crate) fn push_stamp(stamps: &mut ArrayVec<u8, 64>, stamp: u64)
    requires { length stamps.old.items + 8 ≤ 64 }
    ensures { stamps.new.items ≡ stamps.old.items ++ big_bytes 8 stamp }
{
    let mut bytes = [0; 8];
    BigEndian::write_u64(&mut bytes, stamp);
    let _ = stamps.try_extend_from_slice(&bytes);
}
