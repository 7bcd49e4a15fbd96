//! Which pages were reached.

ghost use Rattle.std.specs.Prelude.{◌≡◌, ℕ, ◌<◌, ◌∷◌, [], true, IsTrue, IfErr, OnOk, length};
ghost use Rattle.pages.specs.Marks.{IsUnmarked, Marks, marked_in};
ghost use Rattle.pages.specs.Refused.{RefusesRightly};

use crate::damage::Damage;
use crate::fault_place::FaultPlace;
use crate::walk_fault::WalkFault;

/// Marks a page. Shared, at this page, where it has its mark already, or none can be set.
pub fn mark(reached: &mut [bool], n: u32) -> Result<(), WalkFault>
    ensures marked { OnOk result (Marks (marked_in reached.old) (marked_in reached.new) (n ∷ [])) }
    ensures refused { IfErr result (RefusesRightly (IsUnmarked reached.old n)) }
    ensures told { IfErr result (λ fault. fault ≡ WalkFault.At Damage.Shared (FaultPlace.Page n)) }
    ensures long { length reached.new ≡ length reached.old }
{
    let i = n as usize;
    if i >= reached.len() || reached[i] {
        return Err(WalkFault::of_page(Damage::Shared, n));
    }
    reached[i] = true;
    Ok(())
}

/// No page is without a mark.
pub fn all_marked(reached: &[bool]) -> bool
    ensures { IsTrue result → (n : ℕ) → n < length reached.now → marked_in reached.now n ≡ true }
{
    !reached.contains(&false)
}
