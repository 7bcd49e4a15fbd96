//! A shelf whose calls fail on purpose, for tests.
ghost use Rattle.std.specs.Prelude.{◌≡◌, ◌+◌, length, None};
ghost use Rattle.memory_shelf.specs.declared.fuse.Call.TheVariants.{Create, Sync};
ghost use Rattle.page_store.specs.DeviceFile.{IsWithin, IsThere};
ghost use Rattle.page_store.specs.Calls.{TellsWhetherThere, TellsSize, Created, CreateFails, Synced};
ghost use Rattle.page_store.specs.Calls.{SyncFails};
ghost use Rattle.page_store.specs.ShelfState.{HasUnit};
ghost use Rattle.page_store.specs.ShelfCalls.{HasUnitWith};
ghost use Rattle.memory_shelf.specs.Fuses.{capped, calls_of, unused_fuse};
ghost use Rattle.memory_shelf.specs.FusedCalls.{LooksBehindFuse, ReadsBehindFuse, ChangesBehindFuse};
ghost use Rattle.memory_shelf.specs.FusedCalls.{WritesBehindFuse};

use crate::fuse::{Call, Fuse, Kind, Turn};
use io_state::{Fault, FileName};
use page_store::{GrowingShelf, Shelf};

/// A shelf over another one, of which one counted call fails, or every call from that one on.
#[derive(Drop)]
pub struct FuseShelf<S: Shelf + Drop> {
    inner: S,
    fuse: Fuse,
}

impl<S: Shelf + Drop> FuseShelf<S> {
    /// The `at`-th call of this kind, counted from 1, answers `Fault::Device`; 0 is none. With
    /// `after` it is performed first, whatever the shelf below answers. With `for_good` every later
    /// call but `attach` and `faults` answers `Fault::Device` too, and performs nothing.
    pub fn new(shelf: S, kind: Kind, at: u64, after: bool, for_good: bool) -> FuseShelf<S>
        ensures shelf { result.inner ≡ shelf }
        ensures fuse { result.fuse ≡ unused_fuse kind at after for_good }
    {
        FuseShelf {
            inner: shelf,
            fuse: Fuse {
                kind,
                at,
                after,
                for_good,
                creates: 0,
                reads: 0,
                writes: 0,
                syncs: 0,
                blown: false,
                refused: 0,
                unperformed: 0,
            },
        }
    }

    /// How many calls of this kind there were, those that failed among them. At its greatest value it stays.
    pub fn calls(&self, kind: Kind) -> u64
        ensures { result ≡ calls_of self.now.fuse kind }
    {
        self.fuse.calls(kind)
    }

    /// How many of the calls that failed behind their effect the shelf below did not perform. At its
    /// greatest value it stays.
    pub fn unperformed(&self) -> u64
        ensures { result ≡ self.now.fuse.unperformed }
    {
        self.fuse.unperformed
    }

    /// The shelf below.
    pub fn into_inner(self) -> S
        ensures { result ≡ self.inner }
    {
        let FuseShelf { inner, .. } = self;
        inner
    }
}

impl<S: Shelf + Drop> Shelf for FuseShelf<S> {
    ghost state = { λ shelf. S.Shelf.state shelf.inner };

    ghost fault_count = { λ shelf. capped (S.Shelf.fault_count shelf.inner) shelf.fuse.refused };

    ghost reads_an_image = { λ shelf. S.Shelf.reads_an_image shelf.inner };

    fn faults(&self) -> u64 {
        self.inner.faults().saturating_add(self.fuse.refused)
    }

    fn exists(&mut self, unit: usize) -> Result<bool, Fault>
        requires unit { HasUnit (S.Shelf.state self.old.inner) unit }
        ensures { LooksBehindFuse S.Shelf.state S.Shelf.fault_count unit TellsWhetherThere
            self.old self.new result }
    {
        match self.fuse.turn(Call::Other) {
            Turn::Perform => self.inner.exists(unit),
            _ => self.fuse.fail(),
        }
    }

    fn create(&mut self, unit: usize) -> Result<(), Fault>
        requires { HasUnitWith (S.Shelf.state self.old.inner) unit (λ file. file.seen ≡ None) }
        ensures { ChangesBehindFuse S.Shelf.state S.Shelf.fault_count Create unit Created CreateFails
            self.old self.new result }
    {
        match self.fuse.turn(Call::Create) {
            Turn::Perform => self.inner.create(unit),
            Turn::PerformAndFail => {
                let done = self.inner.create(unit);
                self.fuse.fail_behind(done)
            }
            Turn::Fail => self.fuse.fail(),
        }
    }

    fn size(&mut self, unit: usize) -> Result<u64, Fault>
        requires { HasUnitWith (S.Shelf.state self.old.inner) unit IsThere }
        ensures { LooksBehindFuse S.Shelf.state S.Shelf.fault_count unit TellsSize
            self.old self.new result }
    {
        match self.fuse.turn(Call::Other) {
            Turn::Perform => self.inner.size(unit),
            _ => self.fuse.fail(),
        }
    }

    fn read_at(&mut self, unit: usize, at: u64, bytes: &mut [u8]) -> Result<(), Fault>
        requires { HasUnitWith (S.Shelf.state self.old.inner) unit (IsWithin (at + length bytes.old)) }
        ensures { ReadsBehindFuse S.Shelf.state S.Shelf.fault_count unit at bytes.new
            self.old self.new result }
    {
        match self.fuse.turn(Call::Read) {
            Turn::Perform => self.inner.read_at(unit, at, bytes),
            Turn::PerformAndFail => {
                let done = self.inner.read_at(unit, at, bytes);
                self.fuse.fail_behind(done)
            }
            Turn::Fail => self.fuse.fail(),
        }
    }

    fn write_at(&mut self, unit: usize, at: u64, bytes: &[u8]) -> Result<(), Fault>
        requires { HasUnitWith (S.Shelf.state self.old.inner) unit (IsWithin at) }
        ensures { WritesBehindFuse S.Shelf.state S.Shelf.fault_count unit at bytes.now
            self.old self.new result }
    {
        match self.fuse.turn(Call::Write) {
            Turn::Perform => self.inner.write_at(unit, at, bytes),
            Turn::PerformAndFail => {
                let done = self.inner.write_at(unit, at, bytes);
                self.fuse.fail_behind(done)
            }
            Turn::Fail => self.fuse.fail(),
        }
    }

    fn sync(&mut self, unit: usize) -> Result<(), Fault>
        requires { HasUnitWith (S.Shelf.state self.old.inner) unit IsThere }
        ensures { ChangesBehindFuse S.Shelf.state S.Shelf.fault_count Sync unit Synced SyncFails
            self.old self.new result }
    {
        match self.fuse.turn(Call::Sync) {
            Turn::Perform => self.inner.sync(unit),
            Turn::PerformAndFail => {
                let done = self.inner.sync(unit);
                self.fuse.fail_behind(done)
            }
            Turn::Fail => self.fuse.fail(),
        }
    }

    fn attach(&mut self, units: &[FileName]) -> Result<(), Fault> {
        self.inner.attach(units)
    }
}

impl<S: GrowingShelf + Drop> GrowingShelf for FuseShelf<S> {
    ghost keeps_open = { λ shelf. S.keeps_open shelf.inner };

    fn add_unit(&mut self, name: &FileName) -> Result<(), Fault> {
        self.inner.add_unit(name)
    }

    fn let_go(&mut self, unit: usize) {
        self.inner.let_go(unit);
    }
}
