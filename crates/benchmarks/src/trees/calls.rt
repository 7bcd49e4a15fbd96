//! Calls on a tree, one for each entry of a list.

ghost use Rattle.std.specs.Prelude.{◌≡◌, length};
ghost use Rattle.bplus_tree.specs.Fields.{tree_shape};

use super::entries::Bytes;
use bplus_tree::Tree;
use io_state::Fault;
use pages::Pages;
use tree_node::Entry;

/// Puts each entry in. How many were not there.
pub fn insert_all<P: Pages>(tree: &mut Tree, pages: &mut P, entries: &[Bytes]) -> Result<u64, Fault>
    requires shape { (tree_shape tree.old).entry ≡ 24 }
    requires ready { P.shown.IsReady pages.old }
    requires open { P.shown.CanChange pages.old }
    ensures goes { P.shown.Writes pages.old pages.new }
    ensures shape { tree_shape tree.new ≡ tree_shape tree.old }
{
    let mut sum = 0u64;
    for entry in entries {
        if tree.insert(pages, entry)?.is_none() {
            sum = sum.wrapping_add(1);
        }
    }
    Ok(sum)
}

/// Takes the entry of each key out. A sum of what was taken.
pub fn remove_all<P: Pages>(tree: &mut Tree, pages: &mut P, entries: &[Bytes]) -> Result<u64, Fault>
    requires ready { P.shown.IsReady pages.old }
    requires open { P.shown.CanChange pages.old }
    ensures goes { P.shown.Writes pages.old pages.new }
    ensures shape { tree_shape tree.new ≡ tree_shape tree.old }
{
    let mut sum = 0u64;
    for entry in entries {
        let found = tree.remove(pages, &entry[..18])?;
        sum = added(sum, found.as_ref());
    }
    Ok(sum)
}

/// Looks each key up. A sum of what was found.
pub fn find_all<P: Pages>(tree: &Tree, pages: &mut P, entries: &[Bytes]) -> Result<u64, Fault>
    requires ready { P.shown.IsReady pages.old }
    ensures goes { P.shown.Writes pages.old pages.new }
{
    let mut sum = 0u64;
    for entry in entries {
        let found = tree.find(pages, &entry[..18])?;
        sum = added(sum, found.as_ref());
    }
    Ok(sum)
}

/// Goes over the entries of a tree by a cursor. A sum of them.
pub fn step_over<P: Pages>(tree: &Tree, pages: &mut P) -> Result<u64, Fault>
    requires ready { P.shown.IsReady pages.old }
    ensures goes { P.shown.Writes pages.old pages.new }
{
    let mut sum = 0u64;
    let mut cursor = tree.cursor(&[]);
    let mut entry = Entry::new();
    for _ in 0..tree.count() {
        if cursor.next(tree, pages, &mut entry)? {
            sum = added(sum, Some(&entry));
        }
    }
    Ok(sum)
}

/// The sum with the last byte of an entry.
fn added(sum: u64, found: Option<&Entry>) -> u64 {
    match found {
        None => sum,
        Some(entry) => sum
            .wrapping_mul(31)
            .wrapping_add(entry.get(23).copied().unwrap_or(0) as u64),
    }
}
