//! A leaf in a `Vec`.

ghost use Rattle.std.specs.Prelude.{◌≤◌, length};

use super::entries::key_of;
use super::leaf::Leaf;
use std::alloc::{AllocError, Global};

#[derive(Drop)]
pub struct VecLeaf<const WIDTH: usize, const ENTRY: usize> {
    entries: Vec<[u8; ENTRY]>,
    room: usize,
    ghost small: { ENTRY ≤ 508 },
}

impl<const WIDTH: usize, const ENTRY: usize> VecLeaf<WIDTH, ENTRY> {
    pub fn new(alloc: Global, room: usize) -> Result<Self, AllocError>
        requires { ENTRY ≤ 508 }
    {
        let entries = Vec::with_capacity(alloc, room)?;
        Ok(VecLeaf { entries, room })
    }

    fn place_of(&self, key: &[u8]) -> usize
        ensures { result ≤ length self.now.entries.items }
    {
        let found = self
            .entries
            .binary_search_by(|entry| key_of::<WIDTH, ENTRY>(entry).cmp(key));
        match found {
            Ok(place) | Err(place) => place,
        }
    }
}

impl<const WIDTH: usize, const ENTRY: usize> Leaf<ENTRY> for VecLeaf<WIDTH, ENTRY> {
    fn empty(&mut self) {
        self.entries.clear();
    }

    fn rank(&self, key: &[u8]) -> usize {
        self.place_of(key)
    }

    fn insert(&mut self, entry: &[u8; ENTRY]) -> Result<usize, AllocError> {
        if self.entries.len() >= self.room {
            self.entries.clear();
        }
        let place = self.place_of(key_of::<WIDTH, ENTRY>(entry));
        self.entries.insert(place, *entry)?;
        Ok(place)
    }
}
