//! Files by name, of which more may be had.
ghost use Rattle.std.specs.Prelude.{◌≡◌, ◌≢◌, ℕ, Bool, false, OnOk, OnErr, IsOkUnless};
ghost use Rattle.io_state.specs.declared.fault.Fault.TheVariants.{Memory};
ghost use Rattle.page_store.specs.ShelfState.{HasUnit};
ghost use Rattle.page_store.specs.AddedUnit.{with_added};

use crate::shelf::Shelf;
use io_state::{Fault, FileName};

/// A shelf that units are added to.
pub trait GrowingShelf: Shelf {
    /// Whether the shelf keeps the file of a unit open, and with it any lock that it has on it.
    ghost keeps_open: { Self → ℕ → Bool };

    /// Adds a unit of this name, behind the others. A fault leaves the units that there were.
    fn add_unit(&mut self, name: &FileName) -> Result<(), Fault>
        ensures added { OnOk result (Self.state self.new ≡ with_added name.now.bytes (Self.state self.old)) }
        ensures failed { OnErr result (Self.state self.new ≡ Self.state self.old) }
        ensures only_memory { IsOkUnless result Memory }
        ensures faults { Self.fault_count self.new ≡ Self.fault_count self.old }
        ensures kept { (unit : ℕ) → keeps_open self.new unit ≡ keeps_open self.old unit };

    /// Lets the unit's file go: it is closed, and its lock with it. The unit stays.
    fn let_go(&mut self, unit: usize)
        requires unit { HasUnit (Self.state self.old) unit }
        ensures state { Self.state self.new ≡ Self.state self.old }
        ensures faults { Self.fault_count self.new ≡ Self.fault_count self.old }
        ensures gone { keeps_open self.new unit ≡ false }
        ensures others { (other : ℕ) → other ≢ unit
            → keeps_open self.new other ≡ keeps_open self.old other };
}
