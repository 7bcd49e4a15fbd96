//! A new open file.

ghost use Rattle.std.specs.Prelude.{◌≡◌, ◌-◌, length, drop, IfOk};
ghost use Rattle.record_layout.specs.Schema.{IsSchema};
ghost use Rattle.open_file.specs.Stored.{stamps_length};
ghost use Rattle.open_file.specs.Lent.{LendsToChange};
ghost use Rattle.open_file.specs.Creating.{IsNewOpenFile, AreAllIndexesOf, MakesNewFile, MakesIndexes};
ghost use Rattle.open_file.specs.Creating.{TakesTreePages};

use crate::open_file::OpenFile;
use arrayvec::ArrayVec;
use io_state::Fault;
use key_index::{AltIndex, PrimeIndex};
use pages::Pages;
use record_heap::{Heap, SlotShape};
use record_layout::Schema;

impl OpenFile {
    /// A file without records, of which no page is in use yet: one page is taken for the tree of
    /// each key, in the order of the keys.
    ///
    /// Device, Damage; Full where fewer pages are left than there are keys.
    pub fn create<P: Pages>(pages: &mut P, schema: &Schema) -> Result<OpenFile, Fault>
        requires { LendsToChange P.shown pages.old }
        ensures new { MakesNewFile P.shown pages.old pages.new result }
        ensures made { IfOk result (λ opened. IsNewOpenFile opened schema.now) }
        ensures takes { TakesTreePages P.shown (length schema.now.keys) pages.old pages.new result }
    {
        let heap = Heap::new(heap_shape(schema));
        let prime = PrimeIndex::empty(pages, schema.part(0).length)?;
        let alternates = new_alternates(pages, schema)?;
        Ok(OpenFile {
            schema: schema.copy(),
            next_stamp: 1,
            prime,
            alternates,
            heap,
            path: None,
            broken: false,
        })
    }
}

/// An index without entries for each alternate key, in their order.
fn new_alternates<P: Pages>(pages: &mut P, schema: &Schema) -> Result<ArrayVec<AltIndex, 8>, Fault>
    requires { LendsToChange P.shown pages.old }
    ensures made { MakesIndexes P.shown pages.old pages.new result }
    ensures all { IfOk result (λ alternates. AreAllIndexesOf schema.now alternates.items) }
    ensures takes { TakesTreePages P.shown (length schema.now.keys - 1) pages.old pages.new result }
{
    let keys = schema.key_count();
    let prime = schema.part(0).length;
    let mut alternates = ArrayVec::new();
    for k in 1..keys {
        let width = schema.part(k as u8).length;
        alternates.push(AltIndex::empty(pages, k as u8, width, prime)?);
    }
    Ok(alternates)
}

/// What the slots of a file's heap have in common: each has a stamp for each alternate key that may
/// have duplicates.
pub(crate) fn heap_shape(schema: &Schema) -> SlotShape
    ensures stamps { result.stamps ≡ stamps_length (drop 1 schema.now.keys) }
    ensures least { result.least ≡ schema.now.least }
    ensures greatest { result.greatest ≡ schema.now.greatest }
    ensures schema { IsSchema schema.now }
{
    let least = schema.least();
    let stamped = schema
        .keys()
        .iter()
        .filter(|part| part.has_duplicates())
        .count();
    SlotShape {
        stamps: 8 * stamped as u16,
        least,
        greatest: schema.greatest(),
    }
}
