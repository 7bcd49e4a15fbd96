//! The index of the prime key.

ghost use Rattle.std.specs.Prelude.{◌≡◌, ◌+◌, ◌≤◌, Some, find};
ghost use Rattle.bplus_tree.specs.Fields.{tree_shape};

use crate::entry::{PrimeEntry, key_of, place_in};
use crate::keys::greatest_key;
use bplus_tree::Tree;
use io_state::Fault;
use pages::Pages;
use record_heap::Place;
use tree_node::{Entry, NodeShape};

/// The index of the prime key: no two of its entries have one value.
#[derive(Clone, Copy)]
pub struct PrimeIndex {
    /// The length of a value, in bytes.
    pub width: u16,
    pub tree: Tree,
    ghost narrow: { width ≤ 250 },
    ghost keys: { (tree_shape tree).width ≡ width },
    ghost entries: { (tree_shape tree).entry ≡ width + 6 },
    ghost number: { (tree_shape tree).key ≡ 0 },
}

impl PrimeIndex {
    ghost use Rattle.record_heap.specs.Calls.{MayChange};
    ghost use Rattle.key_index.specs.Entries.{has_prime, from_prime, after_prime, past_prime};
    ghost use Rattle.tree_search.specs.Calls.{last_of};
    ghost use Rattle.key_index.specs.Standing.{IsPrimeStored, CountsPrime, prime_height};
    ghost use Rattle.key_index.specs.Calls.{FindsInPrime, SeeksInPrime, FindsPlaceInPrime, TellsInPrime};
    ghost use Rattle.key_index.specs.Calls.{TellsPrime, filled_with};
    ghost use Rattle.key_index.specs.Stored.{IsWidth, IsHeight, entry_at};
    ghost use Rattle.key_index.specs.Changes.{MakesIndex, AddsToPrime, TakesFromPrime, MayMakePrime};
    ghost use Rattle.key_index.specs.Changes.{MayAddPrime, IsNewPrime, IsPrimeOf};

    /// An index without entries for values of `width` bytes. One page is taken for its root, which
    /// may be answered Full.
    pub fn empty<P: Pages>(pages: &mut P, width: u16) -> Result<PrimeIndex, Fault>
        requires { MayMakePrime P.shown pages.old width }
        ensures { MakesIndex P.shown pages.old pages.new result IsNewPrime (IsPrimeOf width) }
    {
        let shape = NodeShape {
            key: 0,
            width,
            entry: width + 6,
        };
        let tree = Tree::empty(pages, shape)?;
        Ok(PrimeIndex { width, tree })
    }

    /// The index that a header tells of: the page of its root, how many levels it has, and how many entries.
    pub fn stored(width: u16, root: u32, height: u8, count: u64) -> PrimeIndex
        requires width { IsWidth width }
        requires height { IsHeight height }
        ensures { IsPrimeStored result width root height count }
    {
        let shape = NodeShape {
            key: 0,
            width,
            entry: width + 6,
        };
        let tree = Tree::stored(shape, root, height - 1, count);
        PrimeIndex { width, tree }
    }

    /// How many levels its tree has.
    pub fn height(&self) -> u8
        ensures { result ≡ prime_height self.now }
    {
        self.tree.height()
    }

    /// How many entries there are.
    pub fn count(&self) -> u64
        ensures { CountsPrime self.now result }
    {
        self.tree.count()
    }

    /// The entry of a value of any length.
    pub fn find<P: Pages>(&self, pages: &mut P, value: &[u8]) -> Result<Option<PrimeEntry>, Fault>
        requires ready { P.shown.IsReady pages.old }
        ensures { FindsInPrime P.shown pages.old pages.new self.now (find (has_prime value.now)) result }
    {
        if value.len() != usize::from(self.width) {
            return Ok(None);
        }
        match self.place_of(pages, value)? {
            Some(place) => Ok(Some(PrimeEntry {
                value: key_of(value),
                place,
            })),
            None => Ok(None),
        }
    }

    /// The place of the record of a value of any length, read from the leaf.
    pub fn place_of<P: Pages>(&self, pages: &mut P, value: &[u8]) -> Result<Option<Place>, Fault>
        requires ready { P.shown.IsReady pages.old }
        ensures { FindsPlaceInPrime P.shown pages.old pages.new self.now value.now result }
    {
        let mut place = [0; 6];
        if self.tree.find_tail(pages, value, &mut place)? {
            return Ok(Some(place_in(&place)));
        }
        Ok(None)
    }

    /// Whether a value of any length is there.
    pub fn has<P: Pages>(&self, pages: &mut P, value: &[u8]) -> Result<bool, Fault>
        requires ready { P.shown.IsReady pages.old }
        ensures { TellsInPrime P.shown pages.old pages.new self.now value.now result }
    {
        self.tree.has(pages, value)
    }

    /// The first entry whose value is not less than this one, which may have any length.
    pub fn first_from<P: Pages>(
        &self,
        pages: &mut P,
        value: &[u8],
    ) -> Result<Option<PrimeEntry>, Fault>
        requires ready { P.shown.IsReady pages.old }
        ensures { SeeksInPrime P.shown pages.old pages.new self.now (find (from_prime value.now)) result }
    {
        let found = self.tree.at_or_after(pages, value)?;
        self.decode_found(found)
    }

    /// The first entry whose value comes after this one, which may have any length. A value that
    /// goes on where this one ends comes after it.
    pub fn first_after<P: Pages>(
        &self,
        pages: &mut P,
        value: &[u8],
    ) -> Result<Option<PrimeEntry>, Fault>
        requires ready { P.shown.IsReady pages.old }
        ensures { SeeksInPrime P.shown pages.old pages.new self.now (find (after_prime value.now)) result }
    {
        let found = self.tree.after(pages, value)?;
        self.decode_found(found)
    }

    /// The first entry past every value that begins with these bytes.
    pub fn first_past<P: Pages>(
        &self,
        pages: &mut P,
        value: &[u8],
    ) -> Result<Option<PrimeEntry>, Fault>
        requires ready { P.shown.IsReady pages.old }
        ensures { SeeksInPrime P.shown pages.old pages.new self.now (find (past_prime value.now)) result }
    {
        let width = usize::from(self.width);
        let key = greatest_key(value, width, width);
        let found = self.tree.after(pages, key.as_slice())?;
        self.decode_found(found)
    }

    /// The entry of the greatest value.
    pub fn last<P: Pages>(&self, pages: &mut P) -> Result<Option<PrimeEntry>, Fault>
        requires ready { P.shown.IsReady pages.old }
        ensures { FindsInPrime P.shown pages.old pages.new self.now last_of result }
    {
        let found = self.tree.last(pages)?;
        self.decode_found(found)
    }

    /// Adds an entry, and answers true; where its value is there, answers false, and nothing is
    /// changed. Full only where fewer pages are left than the height and one; Damage, and no
    /// change, where the tree tells of 20 levels or of 2^64 - 1 entries. After a fault nothing is
    /// said of the index.
    pub fn add<P: Pages>(
        &mut self,
        pages: &mut P,
        value: &[u8],
        place: Place,
    ) -> Result<bool, Fault>
        requires { MayAddPrime P.shown pages.old self.old value.now }
        ensures { AddsToPrime P.shown pages.old pages.new self.old self.new
            (entry_at value.now place) result }
    {
        let entry = PrimeEntry::bytes(value, place);
        let mut tree = self.tree;
        match tree.insert(pages, entry.as_slice())? {
            Some(_) => Ok(false),
            None => {
                self.tree = tree;
                Ok(true)
            }
        }
    }

    /// Takes out the entry of a value, and answers whether it was there; where it was not, nothing
    /// is changed. No page is taken. After a fault nothing is said of the index.
    pub fn remove<P: Pages>(&mut self, pages: &mut P, value: &[u8]) -> Result<bool, Fault>
        requires pages { MayChange P.shown pages.old }
        ensures { TakesFromPrime P.shown pages.old pages.new self.old self.new value.now result }
    {
        let mut tree = self.tree;
        match tree.remove(pages, value)? {
            Some(_) => {
                self.tree = tree;
                Ok(true)
            }
            None => Ok(false),
        }
    }

    /// The entry whose bytes the tree gave. Damage where they are not as many as an entry has.
    pub(crate) fn decode_found(&self, found: Option<Entry>) -> Result<Option<PrimeEntry>, Fault>
        ensures { TellsPrime self.now found result }
    {
        match found {
            Some(bytes) => self.decode(&bytes),
            None => Ok(None),
        }
    }

    /// The entry of these bytes goes to `entry`, and the answer is true. Damage where they are not
    /// as many as an entry has.
    pub(crate) fn decode_into(&self, bytes: &Entry, entry: &mut PrimeEntry) -> Result<bool, Fault>
        ensures { TellsPrime self.now (Some bytes.now) (filled_with entry.new result) }
    {
        let width = usize::from(self.width);
        if bytes.len() != width + 6 {
            return Err(Fault::Damage);
        }
        entry.fill(bytes.as_slice(), width);
        Ok(true)
    }

    /// The entry of these bytes. Damage where they are not as many as an entry has.
    pub(crate) fn decode(&self, bytes: &Entry) -> Result<Option<PrimeEntry>, Fault>
        ensures { TellsPrime self.now (Some bytes.now) result }
    {
        let width = usize::from(self.width);
        if bytes.len() != width + 6 {
            return Err(Fault::Damage);
        }
        Ok(Some(PrimeEntry::read(bytes.as_slice(), width)))
    }
}
