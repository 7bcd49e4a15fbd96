//! A place among the entries of an index that is kept from one call to the next.

ghost use Rattle.std.specs.Prelude.{◌≡◌, ◌≤◌, ◌↔◌, ◌++◌, length, IsTrue};
ghost use Rattle.byteorder.specs.Endian.{big_bytes};
ghost use Rattle.bplus_tree.specs.Fields.{cursor_key};

use crate::alt_index::AltIndex;
use crate::entry::{AltEntry, PrimeEntry};
use crate::keys::rank_key;
use crate::prime_index::PrimeIndex;
use bplus_tree::Cursor;
use io_state::Fault;
use pages::Pages;
use tree_node::Entry;

/// Gives the entries of a prime index behind a value, one after another.
#[derive(Drop)]
pub struct PrimeCursor {
    pub cursor: Cursor,
}

/// Gives the entries of an index of an alternate key behind a value and stamp, one after another.
#[derive(Drop)]
pub struct AltCursor {
    pub cursor: Cursor,
}

impl PrimeIndex {
    ghost use Rattle.key_index.specs.Cursors.{IsPrimeCursor};

    /// A cursor behind a value.
    pub fn cursor(&self, value: &[u8]) -> PrimeCursor
        requires { length value.now ≡ self.now.width }
        ensures { IsPrimeCursor result self.now value.now }
    {
        PrimeCursor {
            cursor: self.tree.cursor(value),
        }
    }
}

impl PrimeCursor {
    ghost use Rattle.key_index.specs.Cursors.{MovesInPrime};
    ghost use Rattle.key_index.specs.Calls.{filled_with};

    /// Whether it gives what comes after this value.
    pub fn is_after(&self, value: &[u8]) -> bool
        ensures { IsTrue result ↔ (cursor_key self.now.cursor ≡ value.now) }
    {
        self.cursor.key() == value
    }

    /// The next entry goes to `entry`, and the cursor stands after it then. The answer is whether
    /// there is one; where there is none the cursor stays. While the index has not changed it asks
    /// for one page mostly. After a fault nothing is said of the cursor.
    pub fn next<P: Pages>(
        &mut self,
        index: &PrimeIndex,
        pages: &mut P,
        entry: &mut PrimeEntry,
    ) -> Result<bool, Fault>
        requires ready { P.shown.IsReady pages.old }
        ensures { MovesInPrime P.shown pages.old pages.new self.old self.new index.now
            (filled_with entry.new result) }
    {
        let mut bytes = Entry::new();
        if !self.cursor.next(&index.tree, pages, &mut bytes)? {
            return Ok(false);
        }
        index.decode_into(&bytes, entry)
    }
}

impl AltIndex {
    ghost use Rattle.key_index.specs.Cursors.{IsAltCursor};

    /// A cursor behind a value and stamp.
    pub fn cursor(&self, value: &[u8], stamp: u64) -> AltCursor
        requires { length value.now ≡ self.now.width }
        ensures { IsAltCursor result self.now value.now stamp }
    {
        let key = rank_key(value, stamp);
        AltCursor {
            cursor: self.tree.cursor(key.as_slice()),
        }
    }
}

impl AltCursor {
    ghost use Rattle.key_index.specs.Cursors.{MovesInAlt, TellsNextInAlt};
    ghost use Rattle.key_index.specs.Calls.{filled_with};

    /// Whether it gives what comes after this value and stamp.
    pub fn is_after(&self, value: &[u8], stamp: u64) -> bool
        requires { length value.now ≤ 250 }
        ensures { IsTrue result ↔ (cursor_key self.now.cursor ≡ value.now ++ big_bytes 8 stamp) }
    {
        let key = rank_key(value, stamp);
        self.cursor.key() == key.as_slice()
    }

    /// The next entry goes to `entry`, and the cursor stands after it then. The answer is whether
    /// there is one; where there is none the cursor stays. While the index has not changed it asks
    /// for one page mostly. After a fault nothing is said of the cursor.
    pub fn next<P: Pages>(
        &mut self,
        index: &AltIndex,
        pages: &mut P,
        entry: &mut AltEntry,
    ) -> Result<bool, Fault>
        requires ready { P.shown.IsReady pages.old }
        ensures { MovesInAlt P.shown pages.old pages.new self.old self.new index.now
            (filled_with entry.new result) }
    {
        let mut bytes = Entry::new();
        if !self.cursor.next(&index.tree, pages, &mut bytes)? {
            return Ok(false);
        }
        index.decode_into(&bytes, entry)
    }

    /// Whether the next entry has the value that the cursor stands behind. The cursor stays where
    /// it is. While the index has not changed it asks for one page mostly.
    pub fn is_followed<P: Pages>(&self, index: &AltIndex, pages: &mut P) -> Result<bool, Fault>
        requires ready { P.shown.IsReady pages.old }
        ensures { TellsNextInAlt P.shown pages.old pages.new self.now index.now result }
    {
        let key = self.cursor.key();
        let value = &key[..usize::from(index.width).min(key.len())];
        self.cursor.next_begins_with(&index.tree, pages, value)
    }
}
