//! Files by name, as the layers above see them.
ghost use Rattle.std.specs.Prelude.{◌≡◌, ◌+◌, ℕ, List, length, map, is_some, None, IsTrue, OnOk, OnErr};
ghost use Rattle.std.specs.Prelude.{IsOkUnless};
ghost use Rattle.io_state.specs.declared.fault.Fault.TheVariants.{Memory};
ghost use Rattle.page_store.specs.DeviceFile.{content, IsWithin, IsThere};
ghost use Rattle.page_store.specs.Images.{Leaves};
ghost use Rattle.page_store.specs.Calls.{ReadsBytes, Created, CreateFails, Synced, SyncFails};
ghost use Rattle.page_store.specs.ShelfState.{ShelfState, HasUnit, attached_as};
ghost use Rattle.page_store.specs.ShelfCalls.{HasUnitWith, AsksUnit, ChangesUnitFile, WritesUnitFile};

use io_state::{Fault, FileName};

/// Named files on a device that may fail, and that a crash may stop at any moment.
///
/// A unit is a place in the list of names attached; a file is known by its name. The one fault of a
/// call on a unit is `Fault::Device`, and it was counted by `faults`; no other call is counted.
/// `attach` alone may want memory.
pub trait Shelf {
    /// What the shelf shows.
    ghost state: { Self → ShelfState };

    /// How often a call on a unit has failed, as far as 64 bits can count.
    ghost fault_count: { Self → ℕ };

    /// How often a call on a unit has failed. At its greatest value it stays.
    fn faults(&self) -> u64
        ensures { result ≡ fault_count self.now };

    /// Whether the unit's file is there.
    fn exists(&mut self, unit: usize) -> Result<bool, Fault>
        requires unit { HasUnit (state self.old) unit }
        ensures { AsksUnit state fault_count unit (λ file there. there ≡ is_some file.seen)
            self.old self.new result };

    /// Makes the unit's file, without a byte.
    fn create(&mut self, unit: usize) -> Result<(), Fault>
        requires { HasUnitWith (state self.old) unit (λ file. file.seen ≡ None) }
        ensures { ChangesUnitFile state fault_count unit Created CreateFails self.old self.new result };

    /// The number of bytes of the unit's file.
    fn size(&mut self, unit: usize) -> Result<u64, Fault>
        requires { HasUnitWith (state self.old) unit IsThere }
        ensures { AsksUnit state fault_count unit (λ file size. size ≡ length (content file))
            self.old self.new result };

    /// Fills `bytes` with those of the file from byte `at` on. Where the file ends before, it
    /// answers `Fault::Device`.
    fn read_at(&mut self, unit: usize, at: u64, bytes: &mut [u8]) -> Result<(), Fault>
        requires { HasUnitWith (state self.old) unit (IsWithin (at + length bytes.old)) }
        ensures { AsksUnit state fault_count unit (λ file _. ReadsBytes file at bytes.new)
            self.old self.new result };

    /// Writes `bytes` from byte `at` on, and past the end. A write that fails may have changed any
    /// of these bytes.
    fn write_at(&mut self, unit: usize, at: u64, bytes: &[u8]) -> Result<(), Fault>
        requires { HasUnitWith (state self.old) unit (IsWithin at) }
        ensures { WritesUnitFile state fault_count unit at bytes.now self.old self.new result };

    /// Brings to the disk what reads give of the unit's file. A sync that fails may have been done.
    fn sync(&mut self, unit: usize) -> Result<(), Fault>
        requires { HasUnitWith (state self.old) unit IsThere }
        ensures { ChangesUnitFile state fault_count unit Synced SyncFails self.old self.new result };

    /// Gives the units these names, in place of those that they had. A fault leaves the old ones.
    fn attach(&mut self, units: &[FileName]) -> Result<(), Fault>
        ensures attached { OnOk result
            (state self.new ≡ attached_as (map (λ name. name.bytes) units.now) (state self.old)) }
        ensures failed { OnErr result (state self.new ≡ state self.old) }
        ensures only_memory { IsOkUnless result Memory }
        ensures faults { fault_count self.new ≡ fault_count self.old };

    /// What a read gives is one of the images.
    ghost reads_an_image: { (shelf : Self) (name : List ℕ) → IsTrue (state shelf).is_honest
        → Leaves ((state shelf).file name) ((state shelf).file name).seen };
}
