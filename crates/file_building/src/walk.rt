//! The entries of a tree, one after another.

ghost use Rattle.std.specs.Prelude.{◌≡◌, ◌≤◌, length};
ghost use Rattle.tree_node.specs.Order.{less};
ghost use Rattle.file_building.specs.Walk.{BeginsWalk, StepsInWalk, EndsWalk, RisesTo};

use bplus_tree::{Cursor, Tree};
use io_state::Fault;
use pages::Pages;
use tree_node::{Entry, NodeShape, TreeKey};

/// A walk over the entries of a tree, from the first on.
#[derive(Drop)]
pub struct TreeWalk {
    pub(crate) tree: Tree,
    pub(crate) cursor: Cursor,
}

impl TreeWalk {
    /// A walk in front of the first entry.
    pub fn new(tree: Tree) -> TreeWalk
        ensures { BeginsWalk tree result }
    {
        let cursor = tree.cursor(&[]);
        TreeWalk { tree, cursor }
    }

    /// The next entry goes to `entry`.
    ///
    /// Device; Damage where there is none, where it is not as long as the entries of the tree, or
    /// where its key does not come after that of the one before. After a fault nothing is known of
    /// the walk.
    pub fn next<P: Pages>(&mut self, pages: &mut P, entry: &mut Entry) -> Result<(), Fault>
        requires ready { P.shown.IsReady pages.old }
        ensures { StepsInWalk P.shown pages.old pages.new self.old self.new entry.new.items result }
    {
        let last = key_of(self.cursor.key());
        if !self.cursor.next(&self.tree, pages, entry)? {
            return Err(Fault::Damage);
        }
        if rises_to(&last, entry, self.tree.shape()) {
            Ok(())
        } else {
            Err(Fault::Damage)
        }
    }

    /// Looks that there is no other entry: Damage where there is one.
    ///
    /// Device, Damage.
    pub fn end<P: Pages>(&mut self, pages: &mut P) -> Result<(), Fault>
        requires ready { P.shown.IsReady pages.old }
        ensures { EndsWalk P.shown pages.old pages.new self.old result }
    {
        let mut entry = Entry::new();
        if self.cursor.next(&self.tree, pages, &mut entry)? {
            return Err(Fault::Damage);
        }
        Ok(())
    }
}

/// The entry is as long as the entries of the tree, and its key comes after this one.
fn rises_to(last: &TreeKey, entry: &Entry, shape: NodeShape) -> bool
    ensures { RisesTo shape last.now.items entry.now.items result }
{
    if entry.len() != usize::from(shape.entry) {
        return false;
    }
    comes_before(
        last.as_slice(),
        &entry.as_slice()[..usize::from(shape.width)],
    )
}

/// The bytes `a` come before the bytes `b`.
fn comes_before(a: &[u8], b: &[u8]) -> bool
    ensures { result ≡ less a.now b.now }
{
    a.cmp(b).is_lt()
}

/// A tree key with these bytes, where they are not more than one has.
fn key_of(bytes: &[u8]) -> TreeKey
    ensures { length bytes.now ≤ 258 → result.items ≡ bytes.now }
{
    let mut key = TreeKey::new();
    let _ = key.try_extend_from_slice(bytes);
    key
}
