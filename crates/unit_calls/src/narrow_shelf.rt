//! A shelf of which one call fails, whichever it is.

ghost use Rattle.std.specs.Prelude.{◌≡◌, IsErrOf, IsOkUnless};
ghost use Rattle.io_state.specs.declared.fault.Fault.TheVariants.{Device};
ghost use Rattle.page_store.specs.ShelfState.{FaultHasCause};

use io_state::{Fault, FileName};
use page_store::Shelf;

/// A shelf over another one, of which one call fails, or every call from that one on: `attach` for want of
/// memory, and a call on a unit as the device fails.
#[derive(Drop)]
pub struct NarrowShelf<S: Shelf + Drop> {
    inner: S,
    at: u64,
    for_good: bool,
    calls: u64,
    // How many calls on a unit have failed, of either shelf.
    failed: u64,
}

impl<S: Shelf + Drop> NarrowShelf<S> {
    /// The `at`-th call but `faults`, counted from 1, fails, and performs nothing. With `for_good` every later
    /// one does too.
    pub fn new(shelf: S, at: u64, for_good: bool) -> NarrowShelf<S> {
        NarrowShelf {
            inner: shelf,
            at,
            for_good,
            calls: 0,
            failed: 0,
        }
    }

    /// How many calls there were. At its greatest value it stays.
    pub fn calls(&self) -> u64 {
        self.calls
    }

    /// The shelf below.
    pub fn into_inner(self) -> S {
        let NarrowShelf { inner, .. } = self;
        inner
    }

    /// Counts a call, and says whether it fails.
    fn fails(&mut self) -> bool
        ensures inner { self.new.inner ≡ self.old.inner }
        ensures failed { self.new.failed ≡ self.old.failed }
    {
        self.calls = self.calls.saturating_add(1);
        self.calls == self.at || self.for_good && self.calls > self.at
    }
}

/// Counts a call on a unit that fails.
fn fail<T>(failed: &mut u64) -> Result<T, Fault>
    ensures device { IsErrOf result Device }
    ensures cause { FaultHasCause failed.old failed.new result }
{
    *failed = failed.saturating_add(1);
    Err(Fault::Device)
}

/// Counts a call on a unit of the shelf below, where it has failed.
fn counted<T>(failed: &mut u64, done: Result<T, Fault>) -> Result<T, Fault>
    requires { IsOkUnless done Device }
    ensures same { result ≡ done }
    ensures cause { FaultHasCause failed.old failed.new result }
{
    match done {
        Ok(value) => Ok(value),
        Err(_) => fail(failed),
    }
}

impl<S: Shelf + Drop> Shelf for NarrowShelf<S> {
    ghost state = { λ shelf. S.Shelf.state shelf.inner };

    ghost fault_count = { λ shelf. shelf.failed };

    ghost reads_an_image = { λ shelf. S.Shelf.reads_an_image shelf.inner };

    fn faults(&self) -> u64 {
        self.failed
    }

    fn exists(&mut self, unit: usize) -> Result<bool, Fault> {
        if self.fails() {
            return fail(&mut self.failed);
        }
        let done = self.inner.exists(unit);
        counted(&mut self.failed, done)
    }

    fn create(&mut self, unit: usize) -> Result<(), Fault> {
        if self.fails() {
            return fail(&mut self.failed);
        }
        let done = self.inner.create(unit);
        counted(&mut self.failed, done)
    }

    fn size(&mut self, unit: usize) -> Result<u64, Fault> {
        if self.fails() {
            return fail(&mut self.failed);
        }
        let done = self.inner.size(unit);
        counted(&mut self.failed, done)
    }

    fn read_at(&mut self, unit: usize, at: u64, bytes: &mut [u8]) -> Result<(), Fault> {
        if self.fails() {
            return fail(&mut self.failed);
        }
        let done = self.inner.read_at(unit, at, bytes);
        counted(&mut self.failed, done)
    }

    fn write_at(&mut self, unit: usize, at: u64, bytes: &[u8]) -> Result<(), Fault> {
        if self.fails() {
            return fail(&mut self.failed);
        }
        let done = self.inner.write_at(unit, at, bytes);
        counted(&mut self.failed, done)
    }

    fn sync(&mut self, unit: usize) -> Result<(), Fault> {
        if self.fails() {
            return fail(&mut self.failed);
        }
        let done = self.inner.sync(unit);
        counted(&mut self.failed, done)
    }

    fn attach(&mut self, units: &[FileName]) -> Result<(), Fault> {
        if self.fails() {
            return Err(Fault::Memory);
        }
        self.inner.attach(units)
    }
}
