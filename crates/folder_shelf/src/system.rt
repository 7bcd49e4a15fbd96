//! The files and folders of a system, as the layers above ask for them.
ghost use Rattle.std.specs.Prelude.{◌≡◌, ◌≢◌, ℕ, Bool, false, [], ◌∷◌, ◌++◌, map, length, string_bytes};
ghost use Rattle.folder_shelf.specs.Calls.{looked, made, measured, read, held, written, flushed};
ghost use Rattle.folder_shelf.specs.Calls.{asked_of_folder, taken, taken_shared};
ghost use Rattle.folder_shelf.specs.SystemState.{SystemState, IsUnit, with_call, noted_of, entered_at};
ghost use Rattle.folder_shelf.specs.SystemState.{with_units, recording, if_told, AttachesNames, TakesBytes};
ghost use Rattle.folder_shelf.specs.Reading.{TakesText};

use crate::call_record::CallRecord;
use crate::unread::Unread;
use io_state::{Fault, FileName};
use streams::Progress;
use system_files::{Cause, ReadFault};

/// Files and folders of a system, with a record of each call on one and of its answer.
///
/// A unit is the file of a name in one folder. It is kept open from the first call that needs it,
/// under a shared lock, and under an exclusive one from the time it is held or made, until its unit
/// is let go.
pub trait System {
    /// What is known of it.
    ghost state: { Self → SystemState };

    /// Whether the file of a unit is kept open, and so under a lock.
    ghost keeps_open: { Self → ℕ → Bool };

    /// From now on a lock that another run has is tried again for so many seconds, ten times a second,
    /// before a call fails for want of it. At first it is tried once.
    fn wait_for_locks(&mut self, seconds: u32)
        ensures state { state self.new ≡ state self.old }
        ensures kept { (unit : ℕ) → keeps_open self.new unit ≡ keeps_open self.old unit };

    /// Lets all units go. From now on units are files of the folder of this path.
    fn enter(&mut self, folder: String)
        ensures { state self.new ≡ entered_at (string_bytes folder) (state self.old) };

    /// Lets all units go, and has units of these names in their place. `Memory`: it has those that
    /// it had.
    fn attach(&mut self, names: &[FileName]) -> Result<(), Fault>
        ensures { AttachesNames (map (λ name. name.bytes) names.now) (state self.old) (state self.new) result };

    /// Has one more unit, of this name, behind the others. `Memory`: it has those that it had.
    fn add_unit(&mut self, name: &FileName) -> Result<(), Fault>
        ensures added { AttachesNames ((state self.old).names ++ name.now.bytes ∷ []) (state self.old)
            (state self.new) result }
        ensures kept { (unit : ℕ) → keeps_open self.new unit ≡ keeps_open self.old unit };

    /// Lets the unit's file go: it is closed, and its lock with it.
    fn let_go(&mut self, unit: usize)
        ensures state { state self.new ≡ state self.old }
        ensures gone { keeps_open self.new unit ≡ false }
        ensures others { (other : ℕ) → other ≢ unit
            → keeps_open self.new other ≡ keeps_open self.old other };

    /// Whether the file is there, if that was told. A link or a folder is none, and nothing is told
    /// of one. A file that is kept and has its name no more is let go, so that the next call is on
    /// the one that has it.
    fn look(&mut self, unit: usize) -> Option<bool>
        requires { IsUnit (state self.old) unit }
        ensures { state self.new ≡ noted_of unit (λ path. looked path result) (state self.old) };

    /// Makes the file. Whether it was made, and this run has it alone.
    fn make(&mut self, unit: usize) -> bool
        requires { IsUnit (state self.old) unit }
        ensures { state self.new ≡ noted_of unit (λ path. made path result) (state self.old) };

    /// The number of bytes of the file, if it was told.
    fn measure(&mut self, unit: usize) -> Option<u64>
        requires { IsUnit (state self.old) unit }
        ensures { state self.new ≡ noted_of unit (λ path. measured path result) (state self.old) };

    /// Fills the bytes with those of the file from byte `at` on. Whether they all came.
    fn read(&mut self, unit: usize, at: u64, bytes: &mut [u8]) -> bool
        requires { IsUnit (state self.old) unit }
        ensures { state self.new
            ≡ noted_of unit (λ path. read path result at bytes.new) (state self.old) };

    /// Holds the file for changes, so that no other run reads or changes it. Whether it is held,
    /// and still what this run has read.
    fn hold(&mut self, unit: usize) -> bool
        requires { IsUnit (state self.old) unit }
        ensures { state self.new ≡ noted_of unit (λ path. held path result) (state self.old) };

    /// Writes the bytes from byte `at` on into the file, if it is held. How many the system took.
    fn write(&mut self, unit: usize, at: u64, bytes: &[u8]) -> usize
        requires { IsUnit (state self.old) unit }
        ensures { state self.new
            ≡ noted_of unit (λ path. written path at result bytes.now) (state self.old) };

    /// Brings the file to the disk, and its name. Whether it was done.
    fn flush(&mut self, unit: usize) -> bool
        requires { IsUnit (state self.old) unit }
        ensures { state self.new ≡ noted_of unit (λ path. flushed path result) (state self.old) };

    /// Why a call on the unit's file first failed, since it was attached.
    fn cause(&self, unit: usize) -> Option<Cause>;

    /// How many units there are.
    fn units(&self) -> usize
        ensures { result ≡ length (state self.now).names };

    /// The name of the file of a unit, if there is such a unit.
    fn name(&self, unit: usize) -> Option<&str>;

    /// Whether this path is that of a folder, or of a link to one. An error: it is not told.
    fn is_folder(&mut self, path: &str) -> Result<bool, Cause>
        ensures { state self.new ≡ with_call (asked_of_folder path.now (if_told result)) (state self.old) };

    /// The first `most` bytes of the file of this path, and all that it has where those are fewer.
    fn take(&mut self, path: &str, most: usize) -> Result<Vec<u8>, ReadFault>
        ensures { TakesBytes most (taken path.now most)
            (state self.old) (state self.new) result };

    /// The same, as long as no run changes the file. While they come, it is told how many have.
    /// `Device(Cause::InUse)`: a run may be changing it.
    fn take_shared<P: Progress>(
        &mut self,
        path: &str,
        most: usize,
        progress: &mut P,
    ) -> Result<Vec<u8>, ReadFault>
        ensures { TakesBytes most (taken_shared path.now most)
            (state self.old) (state self.new) result };

    /// The number of bytes of the file of this path, if it was told. The file is kept open for the
    /// next call, so that no run changes it, until one of another path is asked for so.
    fn measure_shared(&mut self, path: &str) -> Option<u64>
        ensures { state self.new ≡ with_call (measured path.now result) (state self.old) };

    /// Fills the bytes with those of the file of this path from byte `at` on. Whether they all came.
    /// The file is kept open as by `measure_shared`.
    fn read_shared(&mut self, path: &str, at: u64, bytes: &mut [u8]) -> bool
        ensures { state self.new ≡ with_call (read path.now result at bytes.new) (state self.old) };

    /// The text of the file of this path: all of it, or a front that ends in the midst of a line
    /// that has `longest` bytes at least.
    fn take_text(&mut self, path: &str, longest: usize) -> Result<Vec<u8>, ReadFault>
        ensures { TakesText longest path.now (state self.old) (state self.new) result };

    /// The files and folders of which nothing was told when they were asked for by their paths, and
    /// why, in this order, as far as memory was had to keep it.
    fn unread(&self) -> &[Unread];

    /// Exchanges the record of the calls so far with another one. No call is lost: each stays in one
    /// of the two.
    fn exchange_record(&mut self, other: &mut CallRecord)
        ensures record { state self.new ≡ recording other.old.calls (state self.old) }
        ensures other { other.new.calls ≡ (state self.old).calls };
}
