//! The index of an alternate key.

ghost use Rattle.std.specs.Prelude.{◌≡◌, ◌+◌, ◌≤◌, Some, find, IfErr};
ghost use Rattle.bplus_tree.specs.Fields.{tree_shape};

use crate::entry::{AltEntry, AltFirst};
use crate::keys::{greatest_key, rank_key};
use bplus_tree::Tree;
use io_state::Fault;
use pages::Pages;
use tree_node::{Entry, NodeShape};
use tree_search::First;

/// The index of an alternate key: no two of its entries have one value and stamp.
#[derive(Clone, Copy)]
pub struct AltIndex {
    /// The length of a value, and that of a prime value, in bytes.
    pub width: u16,
    pub prime: u16,
    pub tree: Tree,
    ghost some: { 1 ≤ width },
    ghost wide: { width ≤ 250 },
    ghost narrow: { prime ≤ 250 },
    ghost keys: { (tree_shape tree).width ≡ width + 8 },
    ghost entries: { (tree_shape tree).entry ≡ width + 8 + prime },
}

/// A blank, for the places of an array that have no index yet. Its root is no page.
impl Default for AltIndex {
    fn default() -> AltIndex {
        AltIndex::stored(1, 1, 1, 0, 1, 0)
    }
}

impl AltIndex {
    ghost use Rattle.record_heap.specs.Calls.{MayChange};
    ghost use Rattle.key_index.specs.Entries.{has_rank, from_value, after_rank, past_value};
    ghost use Rattle.tree_search.specs.Calls.{last_of};
    ghost use Rattle.key_index.specs.Standing.{IsAltStored, CountsAlt, alt_height, alt_key};
    ghost use Rattle.key_index.specs.Calls.{filled_with};
    ghost use Rattle.key_index.specs.Calls.{FindsInAlt, SeeksInAlt, FindsFirstInAlt, TellsAlt, TellsFirst};
    ghost use Rattle.key_index.specs.Stored.{IsAltHeader, entry_to};
    ghost use Rattle.key_index.specs.Changes.{MakesIndex, AddsToAlt, TakesFromAlt, MayMakeAlt, MayAddAlt};
    ghost use Rattle.key_index.specs.Changes.{IsNewAlt, IsAltOf};

    /// An index without entries for values of `width` bytes and prime values of `prime` bytes.
    /// `key` is the number of the key. One page is taken for its root, which may be answered Full.
    pub fn empty<P: Pages>(
        pages: &mut P,
        key: u8,
        width: u16,
        prime: u16,
    ) -> Result<AltIndex, Fault>
        requires { MayMakeAlt P.shown pages.old width prime }
        ensures { MakesIndex P.shown pages.old pages.new result IsNewAlt (IsAltOf key width prime) }
    {
        let shape = NodeShape {
            key,
            width: width + 8,
            entry: width + 8 + prime,
        };
        let tree = Tree::empty(pages, shape)?;
        Ok(AltIndex { width, prime, tree })
    }

    /// The index that a header tells of: the page of its root, how many levels it has, and how many entries.
    pub fn stored(key: u8, width: u16, prime: u16, root: u32, height: u8, count: u64) -> AltIndex
        requires { IsAltHeader width prime height }
        ensures stored { IsAltStored result width prime root height count }
        ensures key { alt_key result ≡ key }
    {
        let shape = NodeShape {
            key,
            width: width + 8,
            entry: width + 8 + prime,
        };
        let tree = Tree::stored(shape, root, height - 1, count);
        AltIndex { width, prime, tree }
    }

    /// How many levels its tree has.
    pub fn height(&self) -> u8
        ensures { result ≡ alt_height self.now }
    {
        self.tree.height()
    }

    /// How many entries there are.
    pub fn count(&self) -> u64
        ensures { CountsAlt self.now result }
    {
        self.tree.count()
    }

    /// The entry of a value of any length and a stamp goes to `entry`. The answer is whether there
    /// is one. Only the prime value is taken from the leaf, since the rest is known.
    pub fn find<P: Pages>(
        &self,
        pages: &mut P,
        value: &[u8],
        stamp: u64,
        entry: &mut AltEntry,
    ) -> Result<bool, Fault>
        requires ready { P.shown.IsReady pages.old }
        ensures { FindsInAlt P.shown pages.old pages.new self.now (find (has_rank value.now stamp))
            (filled_with entry.new result) }
    {
        if value.len() != usize::from(self.width) {
            return Ok(false);
        }
        let wanted = rank_key(value, stamp);
        let mut bytes = [0; 250];
        let prime = &mut bytes[..usize::from(self.prime)];
        if !self.tree.find_tail(pages, wanted.as_slice(), prime)? {
            return Ok(false);
        }
        entry.set(value, stamp, prime);
        Ok(true)
    }

    /// The first entry whose value is not less than this one, which may have any length.
    pub fn first_from<P: Pages>(
        &self,
        pages: &mut P,
        value: &[u8],
    ) -> Result<Option<AltEntry>, Fault>
        requires ready { P.shown.IsReady pages.old }
        ensures { SeeksInAlt P.shown pages.old pages.new self.now (find (from_value value.now)) result }
    {
        if value.len() > usize::from(self.width) {
            return self.first_past(pages, value);
        }
        let found = self.tree.at_or_after(pages, value)?;
        self.decode_found(found)
    }

    /// The first entry of a value goes to `first`, and whether the next entry has the value too. The
    /// answer is whether there is one. A value of another length than the key's is not found.
    ///
    /// It asks one page a level, and more only where a leaf ends between two entries of the value
    /// or in front of its first entry; never more than twice the height.
    pub fn first_of<P: Pages>(
        &self,
        pages: &mut P,
        value: &[u8],
        first: &mut AltFirst,
    ) -> Result<bool, Fault>
        requires ready { P.shown.IsReady pages.old }
        ensures { FindsFirstInAlt P.shown pages.old pages.new self.now value.now
            (filled_with first.new result) }
    {
        if value.len() != usize::from(self.width) {
            return Ok(false);
        }
        let least = rank_key(value, 0);
        let greatest = rank_key(value, u64::MAX);
        let found = self
            .tree
            .first_within(pages, least.as_slice(), greatest.as_slice())?;
        match found {
            Some(First { entry, followed }) => self.fill_first(&entry, followed, first),
            None => Ok(false),
        }
    }

    /// The first entry whose value and stamp come after these. The value may have any length; one
    /// that goes on where it ends comes after it.
    pub fn first_after<P: Pages>(
        &self,
        pages: &mut P,
        value: &[u8],
        stamp: u64,
    ) -> Result<Option<AltEntry>, Fault>
        requires ready { P.shown.IsReady pages.old }
        ensures { SeeksInAlt P.shown pages.old pages.new self.now (find (after_rank value.now stamp)) result }
    {
        let width = usize::from(self.width);
        if value.len() > width {
            return self.first_past(pages, value);
        }
        if value.len() < width {
            return self.first_from(pages, value);
        }
        let key = rank_key(value, stamp);
        let found = self.tree.after(pages, key.as_slice())?;
        self.decode_found(found)
    }

    /// The first entry past every value that begins with these bytes.
    pub fn first_past<P: Pages>(
        &self,
        pages: &mut P,
        value: &[u8],
    ) -> Result<Option<AltEntry>, Fault>
        requires ready { P.shown.IsReady pages.old }
        ensures { SeeksInAlt P.shown pages.old pages.new self.now (find (past_value value.now)) result }
    {
        let width = usize::from(self.width);
        let key = greatest_key(value, width, width + 8);
        let found = self.tree.after(pages, key.as_slice())?;
        self.decode_found(found)
    }

    /// The entry of the greatest value, and of these the greatest stamp.
    pub fn last<P: Pages>(&self, pages: &mut P) -> Result<Option<AltEntry>, Fault>
        requires ready { P.shown.IsReady pages.old }
        ensures { FindsInAlt P.shown pages.old pages.new self.now last_of result }
    {
        let found = self.tree.last(pages)?;
        self.decode_found(found)
    }

    /// Adds an entry, and answers true; where its value and stamp are there, answers false, and
    /// nothing is changed. Full only where fewer pages are left than the height and one; Damage,
    /// and no change, where the tree tells of 20 levels or of 2^64 - 1 entries. After a fault
    /// nothing is said of the index.
    pub fn add<P: Pages>(
        &mut self,
        pages: &mut P,
        value: &[u8],
        stamp: u64,
        prime: &[u8],
    ) -> Result<bool, Fault>
        requires { MayAddAlt P.shown pages.old self.old value.now prime.now }
        ensures { AddsToAlt P.shown pages.old pages.new self.old self.new
            (entry_to value.now stamp prime.now) result }
    {
        let entry = AltEntry::bytes(value, stamp, prime);
        let mut tree = self.tree;
        match tree.insert(pages, entry.as_slice())? {
            Some(_) => Ok(false),
            None => {
                self.tree = tree;
                Ok(true)
            }
        }
    }

    /// Takes out the entry of a value and stamp, and answers whether it was there; where it was
    /// not, nothing is changed. No page is taken. After a fault nothing is said of the index.
    pub fn remove<P: Pages>(
        &mut self,
        pages: &mut P,
        value: &[u8],
        stamp: u64,
    ) -> Result<bool, Fault>
        requires pages { MayChange P.shown pages.old }
        ensures { TakesFromAlt P.shown pages.old pages.new self.old self.new value.now stamp result }
    {
        if value.len() != usize::from(self.width) {
            return Ok(false);
        }
        let rank = rank_key(value, stamp);
        let mut tree = self.tree;
        match tree.remove(pages, rank.as_slice())? {
            Some(_) => {
                self.tree = tree;
                Ok(true)
            }
            None => Ok(false),
        }
    }

    /// The first entry of a value, whose bytes the tree gave, goes to `first`, and whether another
    /// one follows. Damage where they are not as many as an entry has.
    fn fill_first(&self, bytes: &Entry, followed: bool, first: &mut AltFirst) -> Result<bool, Fault>
        ensures told { TellsFirst self.now.width self.now.prime bytes.now.items followed
            (filled_with first.new result) }
        ensures damage { IfErr result (λ fault. fault ≡ Fault.Damage) }
    {
        first.followed = followed;
        self.decode_into(bytes, &mut first.entry)
    }

    /// The entry whose bytes the tree gave. Damage where they are not as many as an entry has.
    pub(crate) fn decode_found(&self, found: Option<Entry>) -> Result<Option<AltEntry>, Fault>
        ensures { TellsAlt self.now found result }
    {
        match found {
            Some(bytes) => self.decode(&bytes),
            None => Ok(None),
        }
    }

    /// The entry of these bytes goes to `entry`, and the answer is true. Damage where they are not
    /// as many as an entry has.
    pub(crate) fn decode_into(&self, bytes: &Entry, entry: &mut AltEntry) -> Result<bool, Fault>
        ensures { TellsAlt self.now (Some bytes.now) (filled_with entry.new result) }
    {
        let width = usize::from(self.width);
        let prime = usize::from(self.prime);
        if bytes.len() != width + 8 + prime {
            return Err(Fault::Damage);
        }
        entry.fill(bytes.as_slice(), width, prime);
        Ok(true)
    }

    /// The entry of these bytes. Damage where they are not as many as an entry has.
    pub(crate) fn decode(&self, bytes: &Entry) -> Result<Option<AltEntry>, Fault>
        ensures { TellsAlt self.now (Some bytes.now) result }
    {
        let width = usize::from(self.width);
        let prime = usize::from(self.prime);
        if bytes.len() != width + 8 + prime {
            return Err(Fault::Damage);
        }
        Ok(Some(AltEntry::read(bytes.as_slice(), width, prime)))
    }
}
