//! The fronts of records, kept while memory suffices.

ghost use Rattle.std.specs.Prelude.{◌≡◌, [], false};
ghost use Rattle.file_building.specs.Entries.{KeepsFront};

use std::alloc::Global;

/// So many bytes are held of a record while entries are sorted, beside its front.
const ENTRY_BYTES: usize = 48;

/// Of each record as many bytes as the shortest one has, one front behind another; or none of any, where
/// memory did not suffice for all.
#[derive(Drop)]
pub struct KeptFronts {
    pub(crate) bytes: Vec<u8>,
    pub(crate) are_all: bool,
    // So many more may be kept.
    room: usize,
    // So many bytes may be held of all records.
    pub(crate) memory: usize,
    alloc: Global,
}

impl KeptFronts {
    /// None yet, of records of which the shortest has `least` bytes. At most `memory` bytes are to be held.
    pub fn new(alloc: Global, least: usize, memory: usize) -> KeptFronts
        ensures { result.bytes.items ≡ [] }
    {
        KeptFronts {
            bytes: Vec::new(alloc),
            are_all: true,
            room: memory / least.saturating_add(ENTRY_BYTES),
            memory,
            alloc,
        }
    }

    /// Keeps one more. Where it is one too many, or memory is wanting, all are given up.
    pub fn push(&mut self, front: &[u8])
        ensures { KeepsFront self.old self.new front.now }
    {
        if !self.are_all {
            return;
        }
        if self.room == 0 || self.bytes.extend_from_slice(front).is_err() {
            self.give_up();
            return;
        }
        self.room -= 1;
    }

    /// Gives all of them up.
    fn give_up(&mut self)
        ensures { self.new.are_all ≡ false }
    {
        self.are_all = false;
        self.bytes = Vec::new(self.alloc);
    }
}
