//! The record that a key leads to.

ghost use Rattle.std.specs.Prelude.{◌≡◌, ◌+◌, None, Ok};
ghost use Rattle.pages.specs.PageCalls.{ReadsPages};
ghost use Rattle.key_index.specs.Calls.{filled_with};
ghost use Rattle.key_index.specs.Standing.{prime_height};
ghost use Rattle.open_file.specs.Lent.{LendsPages, LendsArea, LendsAreaBy, LendsAreaByAlternate, IsAlternate};
ghost use Rattle.open_file.specs.Lent.{IsAlternateBy};
ghost use Rattle.open_file.specs.Asked.{AsksAlone, most_by_key, most_by_unique_key, most_by_entry};
ghost use Rattle.open_file.specs.Reading.{FindsByValue, ReadsAtPlace, ReadsByPrime, ReadsByEntry};
ghost use Rattle.open_file.specs.Reading.{TellsByEntry, ReadsInto};
ghost use Rattle.open_file.specs.Steps.{TellsFirstOf};
ghost use Rattle.open_file.specs.Calls.{ReadsByKey, SeeksHighest};

use crate::open_file::OpenFile;
use indexed_file::{Found, copy_of};
use io_state::{Fault, Key};
use key_index::{AltEntry, AltFirst, AltIndex};
use pages::Pages;
use record_heap::Place;

impl OpenFile {
    /// The first record whose key k has this value. It is read into the front of the area, which is
    /// as long as the greatest record.
    ///
    /// It asks one page for each level of the key's tree, one for each of the prime key's, and the
    /// record's; by an alternate key one look tells the record and whether a later one has its
    /// value, and goes on to a second leaf only where one ends in front of the first such record or
    /// behind it.
    ///
    /// Device, Damage, Broken. A fault leaves the area as it was.
    pub fn by_key<P: Pages>(
        &self,
        pages: &mut P,
        k: u8,
        key: &Key,
        area: &mut [u8],
    ) -> Result<Option<Found>, Fault>
        requires { LendsAreaBy P.shown pages.old self.now k area.old }
        ensures { ReadsByKey P.shown self.now k key.now.items pages.old pages.new
            area.old area.new result }
    {
        if self.broken {
            return Err(Fault::Broken);
        }
        if k == 0 {
            return self.by_prime(pages, key, area);
        }
        self.by_alternate(pages, usize::from(k), key, area)
    }

    /// The greatest prime value.
    ///
    /// Device, Damage, Broken.
    pub fn highest<P: Pages>(&self, pages: &mut P) -> Result<Option<Key>, Fault>
        requires ready { P.shown.IsReady pages.old }
        ensures { SeeksHighest P.shown self.now pages.old pages.new result }
    {
        if self.broken {
            return Err(Fault::Broken);
        }
        match self.prime.last(pages)? {
            Some(entry) => Ok(Some(entry.value)),
            None => Ok(None),
        }
    }

    /// The record of a prime value, which no other record has.
    fn by_prime<P: Pages>(
        &self,
        pages: &mut P,
        key: &Key,
        area: &mut [u8],
    ) -> Result<Option<Found>, Fault>
        requires { LendsArea P.shown pages.old self.now area.old }
        ensures finds { FindsByValue P.shown self.now 0 key.now.items pages.old pages.new
            area.old area.new result }
        ensures reads { ReadsPages P.shown (prime_height self.now.prime + 1) pages.old pages.new result }
    {
        match self.fetch(pages, key.as_slice(), area)? {
            Some(length) => Ok(Some(Found {
                key: copy_of(key),
                stamp: 0,
                repeated: false,
                length,
            })),
            None => Ok(None),
        }
    }

    /// The record of an alternate value that was written first.
    fn by_alternate<P: Pages>(
        &self,
        pages: &mut P,
        k: usize,
        key: &Key,
        area: &mut [u8],
    ) -> Result<Option<Found>, Fault>
        requires { LendsAreaByAlternate P.shown pages.old self.now k area.old }
        ensures finds { FindsByValue P.shown self.now k key.now.items pages.old pages.new
            area.old area.new result }
        ensures alone { AsksAlone P.shown self.now k (most_by_unique_key self.now k) pages.old pages.new }
        ensures reads { ReadsPages P.shown (most_by_key self.now k) pages.old pages.new result }
    {
        let mut first = AltFirst::blank();
        if !self.first_of(pages, k, key.as_slice(), &mut first)? {
            return Ok(None);
        }
        Ok(Some(self.found_of(pages, &first.entry, first.followed, area)?))
    }

    /// The first entry of a value of an alternate key goes to `first`, and whether the next entry
    /// has the value too. The answer is whether there is one. Of a key that one record alone can
    /// have, the entry is the one of stamp 0.
    fn first_of<P: Pages>(
        &self,
        pages: &mut P,
        k: usize,
        value: &[u8],
        first: &mut AltFirst,
    ) -> Result<bool, Fault>
        requires lent { LendsPages P.shown pages.old self.now }
        requires key { IsAlternate self.now k }
        ensures { TellsFirstOf P.shown self.now k value.now pages.old pages.new
            (filled_with first.new result) }
    {
        let index = self.alternate(k);
        if self.schema.part(k as u8).has_duplicates() {
            return index.first_of(pages, value, first);
        }
        first.followed = false;
        index.find(pages, value, 0, &mut first.entry)
    }

    /// What is told of the record of an entry of the index of an alternate key, and the record.
    pub(crate) fn deliver<P: Pages>(
        &self,
        pages: &mut P,
        k: usize,
        index: AltIndex,
        entry: &AltEntry,
        area: &mut [u8],
    ) -> Result<Found, Fault>
        requires lent { LendsArea P.shown pages.old self.now area.old }
        requires key { IsAlternateBy self.now k index }
        ensures found { ReadsByEntry P.shown self.now k entry.now pages.old pages.new
            area.old area.new result }
        ensures keeps { ReadsInto P.shown (most_by_entry self.now index) pages.old pages.new
            area.old area.new result }
    {
        let repeated = self.is_followed(pages, k, index, entry.value.as_slice(), entry.stamp)?;
        self.found_of(pages, entry, repeated, area)
    }

    /// The same of an entry of which it is known whether the next one has its value.
    fn found_of<P: Pages>(
        &self,
        pages: &mut P,
        entry: &AltEntry,
        repeated: bool,
        area: &mut [u8],
    ) -> Result<Found, Fault>
        requires { LendsArea P.shown pages.old self.now area.old }
        ensures found { TellsByEntry P.shown self.now entry.now repeated pages.old pages.new
            area.old area.new result }
        ensures keeps { ReadsInto P.shown (prime_height self.now.prime + 1) pages.old pages.new area.old
            area.new result }
    {
        match self.fetch(pages, entry.prime.as_slice(), area)? {
            Some(length) => Ok(Found {
                key: copy_of(&entry.value),
                stamp: entry.stamp,
                repeated,
                length,
            }),
            None => Err(Fault::Damage),
        }
    }

    /// The record of a prime value: its length, and its bytes in the front of the area.
    pub(crate) fn fetch<P: Pages>(
        &self,
        pages: &mut P,
        prime: &[u8],
        area: &mut [u8],
    ) -> Result<Option<u16>, Fault>
        requires { LendsArea P.shown pages.old self.now area.old }
        ensures fetched { ReadsByPrime P.shown self.now prime.now pages.old pages.new
            area.old area.new result }
        ensures none { result ≡ Ok None → area.new ≡ area.old }
        ensures keeps { ReadsInto P.shown (prime_height self.now.prime + 1) pages.old pages.new area.old
            area.new result }
    {
        match self.prime.place_of(pages, prime)? {
            None => Ok(None),
            Some(place) => Ok(Some(self.read(pages, place, area)?)),
        }
    }

    /// Puts the record at a place in the front of the area, and tells its length.
    pub(crate) fn read<P: Pages>(
        &self,
        pages: &mut P,
        place: Place,
        area: &mut [u8],
    ) -> Result<u16, Fault>
        requires { LendsArea P.shown pages.old self.now area.old }
        ensures found { ReadsAtPlace P.shown self.now place pages.old pages.new
            area.old area.new result }
        ensures keeps { ReadsInto P.shown 1 pages.old pages.new area.old area.new result }
    {
        let length = self.heap.get_record(pages, place, area)?;
        Ok(length as u16)
    }
}
