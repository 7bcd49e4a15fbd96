//! A tree, from its root.

ghost use Rattle.std.specs.Prelude.{◌≡◌, ◌≢◌, ◌+◌, ◌-◌, ◌*◌, ◌^◌, ◌<◌, ◌≤◌, IsTrue, IsSome, IfOk, OnOk, Ok};
ghost use Rattle.std.specs.Prelude.{Err, None, length, take};

use crate::collapse::collapse;
use crate::empty_leaf::write_empty_leaf;
use crate::grow_root::grow_root;
use crate::insert::{Grown, insert_below, put_below};
use crate::remove::{Shrunk, remove_below, take_below};
use io_state::Fault;
use pages::Pages;
use tree_node::{Entry, NodeShape};
use tree_search::{
    First, Spot, find_below, find_tail, first_within, has_below, last_below, next_below,
};

/// No tree that stands has so many levels above its leaves: it would have more entries than pages can hold.
const GREATEST_LEVELS: u8 = 19;

/// A tree: the page of its root, how many levels are above its leaves, how many entries it has, and
/// how often it has changed, a number that stays at its greatest value. One that is read off a
/// header begins at 0 changes.
///
/// Each call may answer Device, and Damage where a page is not what its place requires.
/// After a fault of a call that changes the tree nothing is known of it.
#[derive(Clone, Copy)]
pub struct Tree {
    pub(crate) shape: NodeShape,
    pub(crate) root: u32,
    pub(crate) levels: u8,
    count: u64,
    pub(crate) changes: u64,
    ghost low: { levels < 20 },
}

impl Tree {
    ghost use Rattle.bplus_tree.specs.Changes.{CanWrite, CanInsert, WhereSound, GivesPages, TakesOne};
    ghost use Rattle.bplus_tree.specs.Changes.{TakesUpTo, KeepsShape};
    ghost use Rattle.bplus_tree.specs.LookUps.{LooksDown, LooksAlong};
    ghost use Rattle.bplus_tree.specs.TreeCalls.{InsertsInPages, RemovesInPages};
    ghost use Rattle.bplus_tree.specs.Within.{FindsWithin};
    ghost use Rattle.bplus_tree.specs.Depth.{IsPastAll, FindsDamage};
    ghost use Rattle.bplus_tree.specs.Fields.{tree_shape, key_width, tree_root, tree_levels, tree_count};
    ghost use Rattle.bplus_tree.specs.Standing.{Answers, Tells, MakesTree, Inserts, Removes, one_more};
    ghost use Rattle.tree_search.specs.Tail.{CanFillTail, IsTail, TellsPresence};
    ghost use Rattle.tree_search.specs.Calls.{entry_of, first_from, first_after, last_of};

    /// A tree without entries, in a page of its own. Full where no page is available.
    pub fn empty<P: Pages>(pages: &mut P, shape: NodeShape) -> Result<Tree, Fault>
        requires { CanWrite P.shown pages.old }
        ensures made { WhereSound P.shown pages.old pages.new (MakesTree shape result) }
        ensures shape { IfOk result (λ tree. (tree_shape tree ≡ shape) × (tree_levels tree ≡ 0)) }
        ensures one { OnOk result ((P.shown.state pages.new).available + 1
            ≡ (P.shown.state pages.old).available) }
        ensures writes { TakesOne P.shown 2 pages.old pages.new result }
    {
        let root = pages.take()?;
        write_empty_leaf(pages, shape, root)?;
        Ok(Tree {
            shape,
            root,
            levels: 0,
            count: 0,
            changes: 0,
        })
    }

    /// The tree that a header tells of: the page of its root, how many levels are above its leaves,
    /// and how many entries it has. It begins at 0 changes.
    pub fn stored(shape: NodeShape, root: u32, levels: u8, count: u64) -> Tree
        requires low { levels < 20 }
        ensures shape { tree_shape result ≡ shape }
        ensures root { tree_root result ≡ root }
        ensures levels { tree_levels result ≡ levels }
        ensures count { tree_count result ≡ count }
        ensures changes { result.changes ≡ 0 }
    {
        Tree {
            shape,
            root,
            levels,
            count,
            changes: 0,
        }
    }

    /// The key and the lengths of its entries.
    pub fn shape(&self) -> NodeShape
        ensures { result ≡ tree_shape self.now }
    {
        self.shape
    }

    /// The page of its root.
    pub fn root(&self) -> u32
        ensures { result ≡ tree_root self.now }
    {
        self.root
    }

    /// How many levels are above its leaves.
    pub fn levels(&self) -> u8
        ensures { result ≡ tree_levels self.now }
    {
        self.levels
    }

    /// How many levels it has.
    pub fn height(&self) -> u8
        ensures { result ≡ tree_levels self.now + 1 }
    {
        self.levels + 1
    }

    /// How many entries it has.
    pub fn count(&self) -> u64
        ensures { result ≡ tree_count self.now }
    {
        self.count
    }

    /// The entry of a key. A key may have any length; one that is too short or too long is not found.
    pub fn find<P: Pages>(&self, pages: &mut P, key: &[u8]) -> Result<Option<Entry>, Fault>
        requires ready { P.shown.IsReady pages.old }
        ensures { LooksDown P.shown self.now (Answers (entry_of (key_width self.now) key.now))
            pages.old pages.new result }
    {
        find_below(pages, self.shape, self.root, self.levels, key)
    }

    /// The bytes behind the key of an entry go to `tail`, which is as long as they are. The answer
    /// is whether the key, which may have any length, has an entry.
    pub fn find_tail<P: Pages>(
        &self,
        pages: &mut P,
        key: &[u8],
        tail: &mut [u8],
    ) -> Result<bool, Fault>
        requires { CanFillTail P.shown (tree_shape self.now) tail.old pages.old }
        ensures { LooksDown P.shown self.now (Tells (IsTail (key_width self.now) tail.new)
            key.now) pages.old pages.new result }
    {
        find_tail(pages, self.shape, self.root, self.levels, key, tail)
    }

    /// Whether a key, which may have any length, has an entry.
    pub fn has<P: Pages>(&self, pages: &mut P, key: &[u8]) -> Result<bool, Fault>
        requires ready { P.shown.IsReady pages.old }
        ensures { LooksDown P.shown self.now (Tells TellsPresence key.now) pages.old pages.new result }
    {
        has_below(pages, self.shape, self.root, self.levels, key)
    }

    /// The first entry whose key is not below this one, which may have any length.
    pub fn at_or_after<P: Pages>(&self, pages: &mut P, key: &[u8]) -> Result<Option<Entry>, Fault>
        requires ready { P.shown.IsReady pages.old }
        ensures { LooksAlong P.shown self.now (Answers (first_from (key_width self.now) key.now))
            pages.old pages.new result }
    {
        let mut spot = Spot::nowhere();
        next_below(
            pages,
            self.shape,
            self.root,
            self.levels,
            key,
            false,
            &mut spot,
        )
    }

    /// The first entry whose key is above this one, which may have any length.
    pub fn after<P: Pages>(&self, pages: &mut P, key: &[u8]) -> Result<Option<Entry>, Fault>
        requires ready { P.shown.IsReady pages.old }
        ensures { LooksAlong P.shown self.now (Answers (first_after (key_width self.now) key.now))
            pages.old pages.new result }
    {
        let mut spot = Spot::nowhere();
        next_below(
            pages,
            self.shape,
            self.root,
            self.levels,
            key,
            true,
            &mut spot,
        )
    }

    /// The entry of the greatest key.
    pub fn last<P: Pages>(&self, pages: &mut P) -> Result<Option<Entry>, Fault>
        requires ready { P.shown.IsReady pages.old }
        ensures { LooksDown P.shown self.now (Answers last_of) pages.old pages.new result }
    {
        last_below(pages, self.shape, self.root, self.levels)
    }

    /// The first entry whose key is not below `from` and not above `to`, and whether the next entry
    /// is such a one too. The keys may have any length.
    ///
    /// It asks one page a level, and more only where the range goes on behind a leaf with less than
    /// two entries of it; never more than twice the height.
    pub fn first_within<P: Pages>(
        &self,
        pages: &mut P,
        from: &[u8],
        to: &[u8],
    ) -> Result<Option<First>, Fault>
        requires ready { P.shown.IsReady pages.old }
        ensures { LooksAlong P.shown self.now (FindsWithin from.now to.now) pages.old pages.new result }
    {
        first_within(pages, self.shape, self.root, self.levels, from, to)
    }

    /// Puts an entry in where its key is not there, and answers none. Where the key is there, its
    /// entry is answered, and nothing is changed.
    ///
    /// Full where no page is available. Damage also where the tree has 20 levels, or 4,096 times as
    /// many entries as the file has pages, which no tree that stands comes to. After a fault nothing
    /// is known of the tree.
    pub fn insert<P: Pages>(&mut self, pages: &mut P, entry: &[u8]) -> Result<Option<Entry>, Fault>
        requires { CanInsert P.shown (tree_shape self.old) entry.now pages.old }
        ensures inserted { WhereSound P.shown pages.old pages.new
            (Inserts self.old self.new entry.now result) }
        ensures deep { IsPastAll self.old → FindsDamage self.old self.new pages.old pages.new result }
        ensures shape { KeepsShape (tree_levels self.old + 1) self.old self.new }
        ensures changes { result ≡ Ok None → self.new.changes ≡ one_more self.old.changes }
        ensures writes { TakesUpTo P.shown (tree_levels self.old + 2)
            (8 * (tree_levels self.old + 2)) pages.old pages.new result }
    {
        let room = 4096 * u64::from(pages.count());
        if self.levels >= GREATEST_LEVELS || self.count >= room {
            return Err(Fault::Damage);
        }
        if put_below(pages, self.shape, self.root, self.levels, entry)? {
            self.count += 1;
            self.changes = self.changes.saturating_add(1);
            return Ok(None);
        }
        self.insert_or_split(pages, entry)
    }

    /// The same, whether a leaf has room or has to be split.
    fn insert_or_split<P: Pages>(
        &mut self,
        pages: &mut P,
        entry: &[u8],
    ) -> Result<Option<Entry>, Fault>
        requires low { (self.old.levels < 19) × (self.old.count < 2 ^ 64 - 1) }
        requires put { CanInsert P.shown self.old.shape entry.now pages.old }
        ensures inserts { InsertsInPages P.shown entry.now self.old self.new pages.old pages.new result }
        ensures writes { TakesUpTo P.shown (self.old.levels + 2)
            (7 * (self.old.levels + 2)) pages.old pages.new result }
    {
        match insert_below(pages, self.shape, self.root, self.levels, entry)? {
            Grown::Present(found) => Ok(Some(found)),
            Grown::Added(up) => {
                let base = grow_root(pages, self.shape, self.root, self.levels, up)?;
                *self = Tree {
                    shape: self.shape,
                    root: base.root,
                    levels: base.levels,
                    count: self.count + 1,
                    changes: self.changes.saturating_add(1),
                };
                Ok(None)
            }
        }
    }

    /// Takes the entry of a key out, and answers it. Where the key is not there, nothing is changed.
    pub fn remove<P: Pages>(&mut self, pages: &mut P, key: &[u8]) -> Result<Option<Entry>, Fault>
        requires { CanWrite P.shown pages.old }
        ensures removed { WhereSound P.shown pages.old pages.new (Removes self.old self.new key.now result) }
        ensures shape { KeepsShape (tree_levels self.old) self.old self.new }
        ensures changes { IfOk result (λ found. IsSome found → self.new.changes ≡ one_more self.old.changes) }
        ensures writes { GivesPages P.shown (8 * (tree_levels self.old + 2)) pages.old pages.new result }
    {
        let mut entry = Entry::new();
        if take_below(pages, self.shape, self.root, self.levels, key, &mut entry)? {
            self.count = self.count.saturating_sub(1);
            self.changes = self.changes.saturating_add(1);
            return Ok(Some(entry));
        }
        self.remove_or_rebalance(pages, key)
    }

    /// The same, whether a leaf has enough still or has to be rebalanced.
    fn remove_or_rebalance<P: Pages>(
        &mut self,
        pages: &mut P,
        key: &[u8],
    ) -> Result<Option<Entry>, Fault>
        requires { CanWrite P.shown pages.old }
        ensures removes { RemovesInPages P.shown key.now self.old self.new pages.old pages.new result }
        ensures writes { GivesPages P.shown (7 * (self.old.levels + 2)) pages.old pages.new result }
    {
        match remove_below(pages, self.shape, self.root, self.levels, key)? {
            Shrunk::Absent => Ok(None),
            Shrunk::Taken { entry, short: _ } => {
                let base = collapse(pages, self.shape, self.root, self.levels)?;
                *self = Tree {
                    shape: self.shape,
                    root: base.root,
                    levels: base.levels,
                    count: self.count.saturating_sub(1),
                    changes: self.changes.saturating_add(1),
                };
                Ok(Some(entry))
            }
        }
    }
}
