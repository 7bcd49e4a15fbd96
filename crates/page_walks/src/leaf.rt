//! The leaves of a tree.

ghost use Rattle.std.specs.Prelude.{◌≡◌, ◌↔◌, [], ◌∷◌, ◌++◌, IsTrue, IfErr, OnOk, length};
ghost use Rattle.page_walks.specs.Spots.{spots_in};

use pages::WalkFault;

/// A leaf of a tree: its page, and how many entries it has.
#[derive(Clone, Copy, Debug, PartialEq, Eq)]
pub struct Leaf {
    pub page: u32,
    pub count: u16,
}

/// Adds a leaf to a list.
pub fn push(leaves: &mut Vec<Leaf>, leaf: Leaf) -> Result<(), WalkFault>
    ensures added { OnOk result (leaves.new.items ≡ leaves.old.items ++ leaf ∷ []) }
    ensures memory { IfErr result (λ fault. fault ≡ WalkFault.Memory) }
{
    leaves.push(leaf).map_err(|_| WalkFault::Memory)
}

/// The leaves have so many entries.
pub fn have_entries(leaves: &[Leaf], count: u64) -> bool
    ensures { IsTrue result ↔ length (spots_in leaves.now) ≡ count }
{
    let mut left = count;
    for leaf in leaves {
        let entries = leaf.count as u64;
        if left < entries {
            return false;
        }
        left -= entries;
    }
    left == 0
}
