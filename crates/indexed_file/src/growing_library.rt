//! Indexed files, of which more may be had.
ghost use Rattle.std.specs.Prelude.{ℕ, Bool};
ghost use Rattle.indexed_file.specs.Clients.{IsNotOpen};
ghost use Rattle.indexed_file.specs.Growing.{IsNewName, AddsUnit, KeepsOpen, LetsFileGo, LetsGoOnly};

use crate::library::Library;
use io_state::{Fault, FileName};

/// A library that units are added to.
pub trait GrowingLibrary: Library {
    /// Whether the library keeps the file of a unit open, and with it any lock that it has on it.
    ghost keeps_open: { Self → ℕ → Bool };

    /// Adds a unit of this name, behind the others. It is shut. Every other unit, open file, name
    /// and image stays. A fault leaves the units that there were.
    fn add_unit(&mut self, name: &FileName) -> Result<(), Fault>
        requires new { IsNewName (Self.shown.world self.old) name.now.bytes }
        ensures added { AddsUnit Self.shown name.now.bytes self.old self.new result }
        ensures kept { KeepsOpen keeps_open self.old self.new };

    /// Lets the file of a unit go that is not open: its lock is given up. The unit stays, and so
    /// does all else.
    fn let_go(&mut self, u: usize)
        requires { IsNotOpen (Self.shown.world self.old) u }
        ensures stays { LetsFileGo Self.shown self.old self.new }
        ensures gone { LetsGoOnly keeps_open u self.old self.new };
}
