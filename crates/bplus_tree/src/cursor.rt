//! A cursor: a place among the entries of a tree that is kept from one call to the next.

ghost use Rattle.std.specs.Prelude.{◌≡◌, ◌+◌, ◌*◌, ◌≤◌, ◌↔◌, IsTrue, length, take};
ghost use Rattle.pages.specs.PageCalls.{ReadsPages};
ghost use Rattle.tree_search.specs.LookUps.{WhenHonest};

use crate::tree::Tree;
use io_state::Fault;
use pages::Pages;
use tree_node::{Entry, NodeShape, TreeKey};
use tree_search::{Spot, begins_with, copy_entry, entry_begins_with, next_below};

/// The key of the entry that was given last, at first the one that the cursor was made for. While
/// the tree has not changed, also where that entry stands.
#[derive(Drop)]
pub struct Cursor {
    key: TreeKey,
    changes: u64,
    spot: Spot,
}

impl Tree {
    ghost use Rattle.bplus_tree.specs.Cursor.{IsCursorOf};
    ghost use Rattle.bplus_tree.specs.Fields.{cursor_key};

    /// A cursor that gives the entries whose keys are above this one.
    pub fn cursor(&self, key: &[u8]) -> Cursor
        requires width { length key.now ≤ 258 }
        ensures key { cursor_key result ≡ key.now }
        ensures belongs { IsCursorOf self.now result }
    {
        let mut start = TreeKey::new();
        let _ = start.try_extend_from_slice(key);
        Cursor {
            key: start,
            changes: self.changes,
            spot: Spot::nowhere(),
        }
    }
}

impl Cursor {
    ghost use Rattle.bplus_tree.specs.Fields.{cursor_key, tree_levels};
    ghost use Rattle.bplus_tree.specs.LookUps.{LooksAlong};
    ghost use Rattle.bplus_tree.specs.Cursor.{HasNeighbour, CanStep, LooksBehind, StepsOn};
    ghost use Rattle.bplus_tree.specs.Cursor.{StepsFurther, TellsNext, lent};

    /// The key of the entry that was given last, at first the one that the cursor was made for.
    pub fn key(&self) -> &[u8]
        ensures { result.now ≡ cursor_key self.now }
    {
        self.key.as_slice()
    }

    /// The next entry goes to `entry`: the first one whose key is above that of the entry given
    /// last. The answer is whether there is one. Where there is none the cursor stays where it is,
    /// and at a fault. It asks one page mostly, and never more than twice the height.
    pub fn next<P: Pages>(
        &mut self,
        tree: &Tree,
        pages: &mut P,
        entry: &mut Entry,
    ) -> Result<bool, Fault>
        requires ready { P.shown.IsReady pages.old }
        ensures { StepsOn P.shown (2 * (tree_levels tree.now + 1)) tree.now self.old self.new pages.old
            pages.new (lent entry.new result) }
    {
        if self.has_neighbour(tree) {
            return self.step(tree, pages, entry);
        }
        self.find_next(tree, pages, entry)
    }

    /// Whether there is a next entry, and it begins with these bytes. The cursor stays where it is.
    /// It asks one page mostly, and never more than twice the height.
    pub fn next_begins_with<P: Pages>(
        &self,
        tree: &Tree,
        pages: &mut P,
        start: &[u8],
    ) -> Result<bool, Fault>
        requires ready { P.shown.IsReady pages.old }
        ensures told { WhenHonest P.shown pages.old pages.new
            (λ live. TellsNext self.now tree.now live start.now result) }
        ensures reads { ReadsPages P.shown (2 * (tree_levels tree.now + 1)) pages.old pages.new result }
    {
        if self.has_neighbour(tree) {
            let Spot {
                leaf,
                place,
                count: _,
            } = self.spot;
            return entry_begins_with(pages, tree.shape, leaf, usize::from(place) + 1, start);
        }
        let mut spot = Spot::nowhere();
        match self.look_behind(tree, pages, &mut spot)? {
            Some(entry) => Ok(begins_with(&entry, start)),
            None => Ok(false),
        }
    }

    /// The next entry where it stands in the same leaf.
    fn step<P: Pages>(
        &mut self,
        tree: &Tree,
        pages: &mut P,
        entry: &mut Entry,
    ) -> Result<bool, Fault>
        requires { CanStep P.shown self.old tree.now pages.old }
        ensures { StepsOn P.shown 1 tree.now self.old self.new pages.old pages.new (lent entry.new result) }
    {
        let Spot { leaf, place, count } = self.spot;
        let place = place + 1;
        if !copy_entry(pages, tree.shape, leaf, place as usize, entry)? {
            return Err(Fault::Damage);
        }
        take_key(&mut self.key, entry, tree.shape);
        self.spot = Spot { leaf, place, count };
        Ok(true)
    }

    /// The next entry where it may stand in another leaf. This has an entry among its locals, so it
    /// is not inlined.
    #[inline(never)]
    fn find_next<P: Pages>(
        &mut self,
        tree: &Tree,
        pages: &mut P,
        entry: &mut Entry,
    ) -> Result<bool, Fault>
        requires ready { P.shown.IsReady pages.old }
        ensures { StepsFurther P.shown (2 * (tree.now.levels + 1)) tree.now self.old self.new pages.old
            pages.new (lent entry.new result) }
    {
        let mut spot = Spot::nowhere();
        match self.look_behind(tree, pages, &mut spot)? {
            None => Ok(false),
            Some(found) => {
                *entry = found;
                take_key(&mut self.key, entry, tree.shape);
                self.changes = tree.changes;
                self.spot = spot;
                Ok(true)
            }
        }
    }

    /// The first entry above the key, and where it stands.
    fn look_behind<P: Pages>(
        &self,
        tree: &Tree,
        pages: &mut P,
        spot: &mut Spot,
    ) -> Result<Option<Entry>, Fault>
        requires ready { P.shown.IsReady pages.old }
        ensures { LooksAlong P.shown tree.now (LooksBehind self.now spot.new) pages.old pages.new result }
    {
        let key = self.key.as_slice();
        next_below(pages, tree.shape, tree.root, tree.levels, key, true, spot)
    }

    /// The next entry stands behind the one given last, in the same leaf.
    fn has_neighbour(&self, tree: &Tree) -> bool
        ensures { IsTrue result ↔ HasNeighbour self.now tree.now }
    {
        self.changes == tree.changes
            && self.changes < u64::MAX
            && (self.spot.place as u32) + 1 < self.spot.count as u32
    }
}

/// Makes the tree key that of an entry.
fn take_key(key: &mut TreeKey, entry: &Entry, shape: NodeShape)
    ensures { key.new.items ≡ take shape.width entry.now.items }
{
    let width = (shape.width as usize).min(entry.len());
    key.clear();
    let _ = key.try_extend_from_slice(&entry[..width]);
}
