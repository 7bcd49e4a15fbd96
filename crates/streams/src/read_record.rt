//! A list of reads and what they gave that only clauses read.
ghost use Rattle.std.specs.Prelude.{◌≡◌, List, [], ◌∷◌, Some, None};
ghost use Rattle.std.specs.Borrow.{ftrue};
ghost use Rattle.streams.specs.Reads.{AskedRead, read_of_numbers};

use std::marker::{Model, PhantomData};

/// What a reader was asked and what it gave, the newest first. No memory holds it.
#[derive(Drop)]
pub struct Record {
    marker: PhantomData<u8>,
    pub ghost reads: { List AskedRead },
}

impl Model for Record {
    ghost also_owns = { λ _. ftrue };
}

impl Record {
    /// No read.
    pub(crate) fn new() -> Record
        ensures { result.reads ≡ [] }
    {
        Record {
            marker: PhantomData,
        }
    }

    // Adds a read: the room, with a second number if it gave bytes, and these.
    fn note(&mut self, _numbers: &[u64], _bytes: &[u8])
        ensures { self.new.reads ≡ read_of_numbers _numbers.now _bytes.now ∷ self.old.reads }
    {}

    /// There was so much room, and these bytes came.
    pub(crate) fn gave(&mut self, room: usize, bytes: &[u8])
        ensures { self.new.reads ≡ record { room = room; given = Some bytes.now } ∷ self.old.reads }
    {
        self.note(&[room as u64, 1], bytes);
    }

    /// There was so much room, and the read failed.
    pub(crate) fn failed(&mut self, room: usize)
        ensures { self.new.reads ≡ record { room = room; given = None } ∷ self.old.reads }
    {
        self.note(&[room as u64], &[]);
    }
}
