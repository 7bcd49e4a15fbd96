//! The path of READ NEXT through an index.

ghost use Rattle.std.specs.Prelude.{◌≡◌, ◌-◌, ◌*◌, ◌≤◌, length, find, Some, IfSome};
ghost use Rattle.pages.specs.PageCalls.{ReadsPages};
ghost use Rattle.key_index.specs.Calls.{filled_entry, filled_with, SeeksInPrime, SeeksInAlt};
ghost use Rattle.key_index.specs.Entries.{from_prime, after_prime, from_value, after_rank};
ghost use Rattle.key_index.specs.Standing.{alt_height};
ghost use Rattle.open_file.specs.Lent.{LendsByIndex, LendsBehind, IsAlternateBy};
ghost use Rattle.open_file.specs.Asked.{AsksAlone};
ghost use Rattle.open_file.specs.Paths.{LeadsInPrime, LeadsInAlternate};
ghost use Rattle.open_file.specs.Steps.{admits_prime, admits_alt, TellsNextOfKey, MovesPath, StepsInPrime};
ghost use Rattle.open_file.specs.Steps.{StepsInAlternate};

use crate::open_file::OpenFile;
use io_state::{Fault, Position};
use key_index::{AltCursor, AltEntry, AltIndex, PrimeCursor, PrimeEntry, PrimeIndex};
use pages::Pages;

/// A place behind the entry that was read last, in the prime index or in that of an alternate key (from 0).
#[derive(Drop)]
pub enum Path {
    Prime(PrimeCursor),
    Alternate(usize, AltCursor),
}

impl OpenFile {
    /// The first entry of the prime index that the position admits goes to `entry`, and the path is
    /// after it then. The answer is whether there is one.
    pub(crate) fn step_in_prime<P: Pages>(
        &mut self,
        pages: &mut P,
        position: &Position,
        entry: &mut PrimeEntry,
    ) -> Result<bool, Fault>
        requires ready { P.shown.IsReady pages.old }
        ensures { StepsInPrime P.shown (admits_prime position.now) self.old self.new pages.old pages.new
            (filled_with entry.new result) }
    {
        match position {
            Position::Invalid | Position::Missing => Ok(false),
            Position::From(value) => self.prime_from(pages, value.as_slice(), entry),
            Position::After(value, _) => self.prime_after(pages, value.as_slice(), entry),
        }
    }

    /// The same of the index of an alternate key.
    pub(crate) fn step_in_alternate<P: Pages>(
        &mut self,
        pages: &mut P,
        k: usize,
        index: AltIndex,
        position: &Position,
        entry: &mut AltEntry,
    ) -> Result<bool, Fault>
        requires { LendsByIndex P.shown pages.old self.old k index }
        ensures { StepsInAlternate P.shown k index (admits_alt position.now) self.old self.new pages.old
            pages.new (filled_with entry.new result) }
    {
        match position {
            Position::Invalid | Position::Missing => Ok(false),
            Position::From(value) => self.alternate_from(pages, k, index, value.as_slice(), entry),
            Position::After(value, stamp) => self.alternate_after(
                pages,
                k,
                index,
                value.as_slice(),
                *stamp,
                entry,
            ),
        }
    }

    /// Whether the first entry of the index of an alternate key that comes after a value and stamp
    /// has this value. The path tells, where it stands behind them; of a key that one record alone
    /// can have no page is asked.
    pub(crate) fn is_followed<P: Pages>(
        &self,
        pages: &mut P,
        k: usize,
        index: AltIndex,
        value: &[u8],
        stamp: u64,
    ) -> Result<bool, Fault>
        requires { LendsBehind P.shown pages.old self.now k index value.now }
        ensures told { TellsNextOfKey P.shown self.now k value.now stamp pages.old pages.new result }
        ensures alone { AsksAlone P.shown self.now k 0 pages.old pages.new }
        ensures reads { ReadsPages P.shown (2 * alt_height index) pages.old pages.new result }
    {
        if !self.schema.part(k as u8).has_duplicates() {
            return Ok(false);
        }
        if let Some(cursor) = self.cursor_of(k) {
            if value.len() == usize::from(index.width) && cursor.is_after(value, stamp) {
                return cursor.is_followed(&index, pages);
            }
        }
        match index.first_after(pages, value, stamp)? {
            Some(next) => Ok(next.value.as_slice() == value),
            None => Ok(false),
        }
    }

    /// The cursor of the path, where that is in the index of this alternate key.
    fn cursor_of(&self, k: usize) -> Option<&AltCursor>
        requires some { 1 ≤ k }
        ensures { IfSome result (λ cursor. self.now.path ≡ Some (Path.Alternate (k - 1) cursor.now)) }
    {
        match &self.path {
            Some(Path::Alternate(j, cursor)) if *j == k - 1 => Some(cursor),
            _ => None,
        }
    }

    /// The first entry of the prime index whose value is not less than this one goes to `entry`.
    #[inline(never)]
    fn prime_from<P: Pages>(
        &mut self,
        pages: &mut P,
        value: &[u8],
        entry: &mut PrimeEntry,
    ) -> Result<bool, Fault>
        requires ready { P.shown.IsReady pages.old }
        ensures { StepsInPrime P.shown (from_prime value.now) self.old self.new pages.old pages.new
            (filled_with entry.new result) }
    {
        let found = self.prime.first_from(pages, value)?;
        if let Some(first) = &found {
            self.go_on_in_prime(first.value.as_slice());
        }
        Ok(put_found(found, entry))
    }

    /// The first entry of the prime index whose value comes after this one goes to `entry`.
    fn prime_after<P: Pages>(
        &mut self,
        pages: &mut P,
        value: &[u8],
        entry: &mut PrimeEntry,
    ) -> Result<bool, Fault>
        requires ready { P.shown.IsReady pages.old }
        ensures { StepsInPrime P.shown (after_prime value.now) self.old self.new pages.old pages.new
            (filled_with entry.new result) }
    {
        if value.len() != usize::from(self.prime.width) {
            return first_after_prime(&self.prime, pages, value, entry);
        }
        self.lead_in_prime(value);
        let found = match &mut self.path {
            Some(Path::Prime(cursor)) => cursor.next(&self.prime, pages, entry),
            _ => unreachable!(),
        };
        if found.is_err() {
            self.path = None;
        }
        found
    }

    /// The first entry of the index of an alternate key whose value is not less than this one goes
    /// to `entry`.
    #[inline(never)]
    fn alternate_from<P: Pages>(
        &mut self,
        pages: &mut P,
        k: usize,
        index: AltIndex,
        value: &[u8],
        entry: &mut AltEntry,
    ) -> Result<bool, Fault>
        requires { LendsByIndex P.shown pages.old self.old k index }
        ensures { StepsInAlternate P.shown k index (from_value value.now) self.old self.new pages.old
            pages.new (filled_with entry.new result) }
    {
        let found = index.first_from(pages, value)?;
        if let Some(first) = &found {
            self.go_on_in_alternate(k, index, first.value.as_slice(), first.stamp);
        }
        Ok(put_found(found, entry))
    }

    /// The first entry of the index of an alternate key whose value and stamp come after these goes
    /// to `entry`.
    fn alternate_after<P: Pages>(
        &mut self,
        pages: &mut P,
        k: usize,
        index: AltIndex,
        value: &[u8],
        stamp: u64,
        entry: &mut AltEntry,
    ) -> Result<bool, Fault>
        requires { LendsByIndex P.shown pages.old self.old k index }
        ensures { StepsInAlternate P.shown k index (after_rank value.now stamp) self.old self.new pages.old
            pages.new (filled_with entry.new result) }
    {
        if value.len() != usize::from(index.width) {
            return first_after_rank(&index, pages, value, stamp, entry);
        }
        self.lead_in_alternate(k, index, value, stamp);
        let found = match &mut self.path {
            Some(Path::Alternate(_, cursor)) => cursor.next(&index, pages, entry),
            _ => unreachable!(),
        };
        if found.is_err() {
            self.path = None;
        }
        found
    }

    /// Has the path in the prime index, behind a value. Where it is there it stays where it is.
    fn lead_in_prime(&mut self, value: &[u8])
        requires whole { length value.now ≡ self.old.prime.width }
        ensures { LeadsInPrime self.old self.new value.now }
    {
        let there = match &self.path {
            Some(Path::Prime(cursor)) => cursor.is_after(value),
            _ => false,
        };
        if !there {
            self.path = Some(Path::Prime(self.prime.cursor(value)));
        }
    }

    /// Has the path in the index of an alternate key, behind a value and stamp. Where it is there
    /// it stays where it is.
    fn lead_in_alternate(&mut self, k: usize, index: AltIndex, value: &[u8], stamp: u64)
        requires key { IsAlternateBy self.old k index }
        requires whole { length value.now ≡ index.width }
        ensures { LeadsInAlternate self.old self.new k index value.now stamp }
    {
        let there = match &self.path {
            Some(Path::Alternate(j, cursor)) => *j == k - 1 && cursor.is_after(value, stamp),
            _ => false,
        };
        if !there {
            self.path = Some(Path::Alternate(k - 1, index.cursor(value, stamp)));
        }
    }

    /// Has the path behind a value of the prime key.
    fn go_on_in_prime(&mut self, value: &[u8])
        ensures { MovesPath self.old self.new }
    {
        if value.len() == usize::from(self.prime.width) {
            self.path = Some(Path::Prime(self.prime.cursor(value)));
        }
    }

    /// Has the path behind a value and stamp of an alternate key.
    fn go_on_in_alternate(&mut self, k: usize, index: AltIndex, value: &[u8], stamp: u64)
        requires { IsAlternateBy self.old k index }
        ensures { MovesPath self.old self.new }
    {
        if value.len() == usize::from(index.width) {
            self.path = Some(Path::Alternate(k - 1, index.cursor(value, stamp)));
        }
    }
}

/// The first entry of the prime index whose value comes after this one goes to `entry`. The answer
/// is whether there is one.
#[inline(never)]
fn first_after_prime<P: Pages>(
    index: &PrimeIndex,
    pages: &mut P,
    value: &[u8],
    entry: &mut PrimeEntry,
) -> Result<bool, Fault>
    requires ready { P.shown.IsReady pages.old }
    ensures { SeeksInPrime P.shown pages.old pages.new index.now (find (after_prime value.now))
        (filled_with entry.new result) }
{
    let found = index.first_after(pages, value)?;
    Ok(put_found(found, entry))
}

/// The first entry of an index of an alternate key whose value and stamp come after these goes to
/// `entry`. The answer is whether there is one.
#[inline(never)]
fn first_after_rank<P: Pages>(
    index: &AltIndex,
    pages: &mut P,
    value: &[u8],
    stamp: u64,
    entry: &mut AltEntry,
) -> Result<bool, Fault>
    requires ready { P.shown.IsReady pages.old }
    ensures { SeeksInAlt P.shown pages.old pages.new index.now (find (after_rank value.now stamp))
        (filled_with entry.new result) }
{
    let found = index.first_after(pages, value, stamp)?;
    Ok(put_found(found, entry))
}

/// An entry that was found goes to `entry`. The answer is whether one was.
fn put_found<E: Drop>(found: Option<E>, entry: &mut E) -> bool
    ensures { filled_entry entry.new result ≡ found }
{
    match found {
        Some(first) => {
            *entry = first;
            true
        }
        None => false,
    }
}
