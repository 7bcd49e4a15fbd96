//! The library.

ghost use Rattle.std.specs.Prelude.{◌≡◌, ◌≤◌, ℕ, List, [], length, map, slice_index, replicate};
ghost use Rattle.std.specs.Prelude.{Ok, Err, IsTrue, IfOk, IsOkUnless};
ghost use Rattle.std.specs.NonZero.{non_zero_usize_get};
ghost use Rattle.std.proofs.Props.{props};
ghost use Rattle.record_layout.proofs.PropLemmas.{keys_prop};
ghost use Rattle.page_store.proofs.PropLemmas.{open_prop};
ghost use Rattle.indexed_file.specs.Room.{height_at};
ghost use Rattle.open_file.specs.Stands.{heights_of};
ghost use Rattle.shelf_library.specs.State.{AreLimited, held_at};
ghost use Rattle.shelf_library.specs.OneUnit.{AreUnits};
ghost use Rattle.shelf_library.specs.Units.{room_of_held};
ghost use Rattle.shelf_library.specs.Told.{held_after, seen_after, held_open, answer_open};

use crate::held::Held;
use crate::look::{HeaderLook, look_at};
use crate::shelf_file::ShelfFile;
use indexed_file::{Added, Found, GrowingLibrary, Library, Replaced, Seen};
use io_state::{Fault, FileName, Key, Position, Relation};
use open_file::OpenFile;
use page_store::{GrowingShelf, Shelf};
use record_layout::Schema;
use std::alloc::Global;
use std::mem;
use std::num::NonZeroUsize;

/// A library that keeps its files in pages on a shelf: at most `limit` pages a file, of which at
/// most `frames` are held in memory while it is open.
#[derive(Drop)]
pub struct ShelfLibrary<S: Shelf> {
    alloc: Global,
    shelf: S,
    frames: NonZeroUsize,
    limit: u32,
    units: Vec<Held>,
    ghost room: { 16 ≤ limit },
    ghost many: { length units.items ≡ length (S.state shelf).names },
    ghost fit: { AreUnits (S.state shelf) units.items } by { Prim.hlevel (props, keys_prop, open_prop) },
    ghost limits: { AreLimited limit (non_zero_usize_get frames) units.items } by { Prim.hlevel props },
}

/// What a unit holds after a look, and what is answered.
fn held_and_seen(look: Result<HeaderLook, Fault>) -> (Held, Result<Seen, Fault>)
    ensures held { result.0 ≡ held_after look }
    ensures seen { result.1 ≡ seen_after look }
{
    match look {
        Err(fault) => (Held::Nothing, Err(fault)),
        Ok(HeaderLook::NoFile) => (Held::Nothing, Ok(Seen::Absent)),
        Ok(HeaderLook::Refused) => (Held::Nothing, Ok(Seen::Unsound)),
        Ok(HeaderLook::Accepted(header)) => {
            let schema = header.schema.copy();
            (Held::Looked(header), Ok(Seen::Sound(schema)))
        }
    }
}

/// What a unit holds after its file was opened or made, and what is answered.
fn opened(file: Result<ShelfFile, Fault>) -> (Held, Result<(), Fault>)
    ensures held { result.0 ≡ held_open file }
    ensures answer { result.1 ≡ answer_open file }
{
    match file {
        Ok(file) => (Held::Opened(file), Ok(())),
        Err(fault) => (Held::Nothing, Err(fault)),
    }
}

/// Units that hold nothing.
fn nothing_held(alloc: Global, count: usize) -> Result<Vec<Held>, Fault>
    ensures count { IfOk result (λ units. units.items ≡ replicate count Held.Nothing) }
    ensures only_memory { IsOkUnless result Fault.Memory }
{
    let mut units = Vec::new(alloc);
    for _ in 0..count {
        if units.push(Held::Nothing).is_err() {
            return Err(Fault::Memory);
        }
    }
    Ok(units)
}

/// The height of the tree of key k; 0 where there is no such key.
fn tree_height(file: &OpenFile, k: usize) -> u8
    ensures { result ≡ slice_index (heights_of file.now) k }
{
    if k == 0 {
        return file.prime_height();
    }
    match file.alternates().get(k - 1) {
        Some(index) => index.height(),
        None => 0,
    }
}

impl<S: Shelf> ShelfLibrary<S> {
    /// A library over a shelf to which no name is attached. A file has at most `limit` pages of
    /// 4,096 bytes, of which at most `frames` are held in memory while it is open.
    pub fn new(alloc: Global, shelf: S, limit: u32, frames: NonZeroUsize) -> Self
        requires names { (S.state shelf).names ≡ [] }
        requires limit { 16 ≤ limit }
        ensures shelf { result.shelf ≡ shelf }
        ensures units { result.units.items ≡ [] }
        ensures limit { result.limit ≡ limit }
        ensures frames { result.frames ≡ frames }
    {
        ShelfLibrary {
            alloc,
            shelf,
            frames,
            limit,
            units: Vec::new(alloc),
        }
    }

    /// The height of the tree of key k, where the unit has a file open; 0 where it has none, or its
    /// file no such key.
    pub fn height(&self, u: usize, k: u8) -> u8
        ensures { result ≡ height_at (room_of_held (held_at self.now.units.items u)) k }
    {
        match self.units.get(u) {
            Some(Held::Opened(file)) => tree_height(file.parts(), k as usize),
            _ => 0,
        }
    }

    /// Its shelf. Units that are open are forgotten.
    pub fn into_shelf(self) -> S
        ensures { result ≡ self.shelf }
    {
        self.shelf
    }
}

impl<S: Shelf> Library for ShelfLibrary<S> {
    ghost use Rattle.shelf_library.specs.Library.{shown_by};
    ghost use Rattle.shelf_library.specs.MomentLaws.{joins, ends};
    ghost use Rattle.shelf_library.specs.Laws.{shows_files, fills};
    ghost use Rattle.shelf_library.specs.Laws.{room_within, frames_within, none_counted};

    ghost shown = { shown_by (λ library. record {
      shelf = S.state library.shelf;
      held = library.units.items;
      faults = S.fault_count library.shelf;
      limit = library.limit;
      frames = non_zero_usize_get library.frames;
    }) };

    ghost joins = { λ first then last. joins (S.state first.shelf) (S.state then.shelf)
        (S.state last.shelf) };

    ghost ends = { λ old new. ends (S.state old.shelf) (S.state new.shelf) };

    ghost shows_files = { λ library name. shows_files (S.state library.shelf) library.units.items name
        library.many };

    ghost fills = { λ library u schema file honest. fills (S.state library.shelf) library.units.items u
        schema file library.many library.fit.ready };

    ghost limits = { λ library u opened. record {
      room = room_within (S.state library.shelf) library.units.items library.limit
          (non_zero_usize_get library.frames) u library.many library.limits opened;
      frames = frames_within (S.state library.shelf) library.units.items library.limit
          (non_zero_usize_get library.frames) u library.many library.limits opened;
    } };

    ghost counts = { λ library u closed. none_counted (S.state library.shelf) library.units.items u
        library.many closed };

    fn attach(&mut self, names: &[FileName]) -> Result<(), Fault> {
        let units = nothing_held(self.alloc, names.len())?;
        self.shelf.attach(names)?;
        self.units = units;
        Ok(())
    }

    fn faults(&self) -> u64 {
        self.shelf.faults()
    }

    fn asked(&self, u: usize) -> u64 {
        match &self.units[u] {
            Held::Opened(file) => file.asked(),
            _ => 0,
        }
    }

    fn restart_count(&mut self, u: usize) {
        if let Held::Opened(file) = &mut self.units[u] {
            file.restart_count();
        }
    }

    fn look(&mut self, u: usize) -> Result<Seen, Fault> {
        let (held, seen) = held_and_seen(look_at(&mut self.shelf, u));
        self.units[u] = held;
        seen
    }

    fn create(&mut self, u: usize, schema: &Schema) -> Result<(), Fault> {
        let file = ShelfFile::create(
            self.alloc,
            &mut self.shelf,
            u,
            self.frames,
            self.limit,
            schema,
        );
        let (held, made) = opened(file);
        self.units[u] = held;
        made
    }

    fn open(&mut self, u: usize) -> Result<(), Fault> {
        let Held::Looked(header) = mem::replace(&mut self.units[u], Held::Nothing) else {
            unreachable!()
        };
        let file = ShelfFile::open(self.alloc, u, self.frames, self.limit, &header);
        let (held, made) = opened(file);
        self.units[u] = held;
        made
    }

    fn by_key(
        &mut self,
        u: usize,
        k: u8,
        key: &Key,
        area: &mut [u8],
    ) -> Result<Option<Found>, Fault> {
        match &mut self.units[u] {
            Held::Opened(file) => file.by_key(&mut self.shelf, k, key, area),
            _ => unreachable!(),
        }
    }

    fn next(
        &mut self,
        u: usize,
        k: u8,
        position: &Position,
        area: &mut [u8],
    ) -> Result<Option<Found>, Fault> {
        match &mut self.units[u] {
            Held::Opened(file) => file.next(&mut self.shelf, k, position, area),
            _ => unreachable!(),
        }
    }

    fn seek(
        &mut self,
        u: usize,
        k: u8,
        operand: &[u8],
        relation: Relation,
    ) -> Result<Option<Key>, Fault> {
        match &mut self.units[u] {
            Held::Opened(file) => file.seek(&mut self.shelf, k, operand, relation),
            _ => unreachable!(),
        }
    }

    fn highest(&mut self, u: usize) -> Result<Option<Key>, Fault> {
        match &mut self.units[u] {
            Held::Opened(file) => file.highest(&mut self.shelf),
            _ => unreachable!(),
        }
    }

    fn add(&mut self, u: usize, bytes: &[u8]) -> Result<Added, Fault> {
        match &mut self.units[u] {
            Held::Opened(file) => file.add(&mut self.shelf, bytes),
            _ => unreachable!(),
        }
    }

    fn replace(&mut self, u: usize, bytes: &[u8]) -> Result<Replaced, Fault> {
        match &mut self.units[u] {
            Held::Opened(file) => file.replace(&mut self.shelf, bytes),
            _ => unreachable!(),
        }
    }

    fn remove(&mut self, u: usize, key: &Key) -> Result<bool, Fault> {
        match &mut self.units[u] {
            Held::Opened(file) => file.remove(&mut self.shelf, key),
            _ => unreachable!(),
        }
    }

    fn shut(&mut self, u: usize) -> Result<(), Fault> {
        let Held::Opened(mut file) = mem::replace(&mut self.units[u], Held::Nothing) else {
            unreachable!()
        };
        file.close(&mut self.shelf)
    }
}

impl<S: GrowingShelf> GrowingLibrary for ShelfLibrary<S> {
    ghost keeps_open = { λ library. S.keeps_open library.shelf };

    fn add_unit(&mut self, name: &FileName) -> Result<(), Fault> {
        self.units.reserve(1).map_err(|_| Fault::Memory)?;
        self.shelf.add_unit(name)?;
        if self.units.push(Held::Nothing).is_err() {
            unreachable!()
        }
        Ok(())
    }

    fn let_go(&mut self, u: usize) {
        self.shelf.let_go(u);
    }
}
