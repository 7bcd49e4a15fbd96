//! A list of records that only clauses read.
ghost use Rattle.std.specs.Prelude.{◌≡◌, ℕ, List, [], ◌∷◌, ◌++◌};
ghost use Rattle.std.specs.Borrow.{ftrue};

use std::marker::{Model, PhantomData};

/// The records that were given, in their order. No memory holds them.
#[derive(Drop)]
pub struct GivenRecords {
    marker: PhantomData<u8>,
    pub ghost records: { List (List ℕ) },
}

impl Model for GivenRecords {
    ghost also_owns = { λ _. ftrue };
}

impl GivenRecords {
    /// No record.
    pub fn new() -> GivenRecords
        ensures { result.records ≡ [] }
    {
        GivenRecords {
            marker: PhantomData,
        }
    }

    /// Adds a record.
    pub fn note(&mut self, _record: &[u8])
        ensures { self.new.records ≡ self.old.records ++ _record.now ∷ [] }
    {}
}
