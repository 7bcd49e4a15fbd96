//! The record that comes next.

ghost use Rattle.pages.specs.PageCalls.{ReadsPages};
ghost use Rattle.open_file.specs.Lent.{LendsArea, LendsAreaBy, LendsAreaByAlternate};
ghost use Rattle.open_file.specs.Asked.{pages_to_read};
ghost use Rattle.open_file.specs.Reading.{FindsNext};
ghost use Rattle.open_file.specs.Steps.{MovesPathIn};
ghost use Rattle.open_file.specs.Calls.{ReadsNext};

use crate::open_file::OpenFile;
use indexed_file::Found;
use io_state::{Fault, Position};
use key_index::{AltEntry, PrimeEntry};
use pages::Pages;

impl OpenFile {
    /// The first record that the position admits, by key k. It is read into the front of the area,
    /// which is as long as the greatest record. The path to it is kept for the next call.
    ///
    /// Device, Damage, Broken. A fault leaves the area as it was.
    pub fn next<P: Pages>(
        &mut self,
        pages: &mut P,
        k: u8,
        position: &Position,
        area: &mut [u8],
    ) -> Result<Option<Found>, Fault>
        requires { LendsAreaBy P.shown pages.old self.old k area.old }
        ensures { ReadsNext P.shown self.old self.new k position.now pages.old pages.new
            area.old area.new result }
    {
        if self.broken {
            return Err(Fault::Broken);
        }
        if k == 0 {
            return self.next_by_prime(pages, position, area);
        }
        self.next_by_alternate(pages, usize::from(k), position, area)
    }

    /// The first record that the position admits, by the prime key.
    fn next_by_prime<P: Pages>(
        &mut self,
        pages: &mut P,
        position: &Position,
        area: &mut [u8],
    ) -> Result<Option<Found>, Fault>
        requires { LendsArea P.shown pages.old self.old area.old }
        ensures finds { FindsNext P.shown self.old 0 position.now pages.old pages.new
            area.old area.new result }
        ensures moves { MovesPathIn P.shown pages.old pages.new self.old self.new }
        ensures reads { ReadsPages P.shown (pages_to_read P.shown self.old pages.old 0) pages.old pages.new
            result }
    {
        let mut entry = PrimeEntry::blank();
        if !self.step_in_prime(pages, position, &mut entry)? {
            return Ok(None);
        }
        let length = self.read(pages, entry.place, area)?;
        Ok(Some(Found {
            key: entry.value,
            stamp: 0,
            repeated: false,
            length,
        }))
    }

    /// The first record that the position admits, by an alternate key.
    fn next_by_alternate<P: Pages>(
        &mut self,
        pages: &mut P,
        k: usize,
        position: &Position,
        area: &mut [u8],
    ) -> Result<Option<Found>, Fault>
        requires { LendsAreaByAlternate P.shown pages.old self.old k area.old }
        ensures finds { FindsNext P.shown self.old k position.now pages.old pages.new
            area.old area.new result }
        ensures moves { MovesPathIn P.shown pages.old pages.new self.old self.new }
        ensures reads { ReadsPages P.shown (pages_to_read P.shown self.old pages.old k) pages.old pages.new
            result }
    {
        let index = self.alternate(k);
        let mut entry = AltEntry::blank();
        if !self.step_in_alternate(pages, k, index, position, &mut entry)? {
            return Ok(None);
        }
        Ok(Some(self.deliver(pages, k, index, &entry, area)?))
    }
}
