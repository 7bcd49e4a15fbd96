//! A list of writes and answers that only clauses read.
ghost use Rattle.std.specs.Prelude.{◌≡◌, List, [], ◌∷◌, Some, None};
ghost use Rattle.std.specs.Borrow.{ftrue};
ghost use Rattle.streams.specs.Writes.{AskedWrite, write_of_numbers};

use std::marker::{Model, PhantomData};

/// What a writer was asked and what it answered, the newest first. No memory holds it.
#[derive(Drop)]
pub struct Record {
    marker: PhantomData<u8>,
    pub ghost writes: { List AskedWrite },
}

impl Model for Record {
    ghost also_owns = { λ _. ftrue };
}

impl Record {
    /// No write.
    pub(crate) fn new() -> Record
        ensures { result.writes ≡ [] }
    {
        Record {
            marker: PhantomData,
        }
    }

    // Adds a write: the number of bytes that were taken, if it was answered by one, and the bytes.
    fn note(&mut self, _numbers: &[u64], _bytes: &[u8])
        ensures { self.new.writes ≡ write_of_numbers _numbers.now _bytes.now ∷ self.old.writes }
    {}

    /// Bytes were to be written, and so many were taken.
    pub(crate) fn taken(&mut self, bytes: &[u8], count: usize)
        ensures { self.new.writes ≡ record { bytes = bytes.now; taken = Some count } ∷ self.old.writes }
    {
        self.note(&[count as u64], bytes);
    }

    /// Bytes were to be written, and none was taken.
    pub(crate) fn failed(&mut self, bytes: &[u8])
        ensures { self.new.writes ≡ record { bytes = bytes.now; taken = None } ∷ self.old.writes }
    {
        self.note(&[], bytes);
    }
}
