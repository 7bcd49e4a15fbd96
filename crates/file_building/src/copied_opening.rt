//! The file that has parts which were copied.

ghost use Rattle.std.specs.Prelude.{◌≡◌, length};
ghost use Rattle.open_file.specs.Stands.{IsShaped};
ghost use Rattle.open_file.specs.Fields.{alternates_of};
ghost use Rattle.file_building.specs.CopiedOpening.{OpensParts};

use crate::opening::open_parts;
use arrayvec::ArrayVec;
use io_state::Fault;
use key_index::{AltIndex, PrimeIndex};
use open_file::OpenFile;
use record_heap::Heap;

/// The file that has these parts, with the schema and the next stamp of another.
///
/// Damage where a number is none that a header may have.
pub fn open_copy(
    source: &OpenFile,
    heap: &Heap,
    prime: &PrimeIndex,
    alternates: &ArrayVec<AltIndex, 8>,
) -> Result<OpenFile, Fault>
    requires shaped { IsShaped source.now }
    requires many { length alternates.now.items ≡ length (alternates_of source.now) }
    ensures { OpensParts source.now heap.now prime.now alternates.now.items result }
{
    open_parts(
        source.schema(),
        source.next_stamp(),
        heap,
        prime,
        alternates,
    )
}
