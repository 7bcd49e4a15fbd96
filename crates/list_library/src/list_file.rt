//! A file in memory.
ghost use Rattle.std.specs.Prelude.{◌≡◌, ◌≤◌, ◌<◌, length, filter, is_some, ◌+◌, ◌^◌, ◌&&◌, nat_le};
ghost use Rattle.std.specs.Prelude.{IsFalse, if◌then◌else◌, OnOk, OnErr, IsOkUnless};
ghost use Rattle.std.specs.List.{prefix_len};
ghost use Rattle.indexed_file.specs.Rank.{lowest, has_value};
ghost use Rattle.indexed_file.specs.Change.{inserted, others_in};
ghost use Rattle.indexed_file.specs.Answers.{read_into, found_in};
ghost use Rattle.list_library.specs.Stored.{IsFit};
ghost use Rattle.list_library.specs.Scans.{is_up_to};

use crate::list_row::ListRow;
use crate::presence::{
    clashes, clashes_besides, is_repeated, repeats, repeats_changed, takes_stamp,
};
use crate::scan::{highest, lowest};
use crate::wanted::{Wanted, value};
use indexed_file::{Added, Found, Replaced};
use io_state::{Fault, Key};
use record_layout::Schema;
use std::alloc::Global;
use std::marker::Model;

/// The rows of a file in the order of their prime values, its next stamp and its schema.
#[derive(Drop)]
pub struct ListFile {
    schema: Schema,
    rows: Vec<ListRow>,
    next_stamp: u64,
}

impl Model for ListFile {
    ghost use Rattle.list_library.specs.Stored.{Stored, IsStored};

    ghost Value = { Stored };

    ghost view = { λ f. record {
      schema = f.schema;
      file = record { rows = f.rows.items; next_stamp = f.next_stamp };
    } };

    ghost invariant = { λ f. IsStored f.schema (record { rows = f.rows.items; next_stamp = f.next_stamp }) };
}

/// The stamp behind the last one that is given.
const STAMPS_END: u64 = 1 << 63;

#[tactic(auto, using(crate::proofs::StoredLemmas::row_fits, crate::proofs::StoredLemmas::row_at_place))]
impl ListFile {
    ghost use Rattle.std.specs.Prelude.{◌≡◌, ◌<◌, length, slice_get, Some, option_map, IsTrue};
    ghost use Rattle.indexed_file.specs.File.{empty_file};
    ghost use Rattle.indexed_file.specs.Rank.{highest_of};
    ghost use Rattle.list_library.specs.Wanted.{first_wanted, found_wanted, key_wanted};
    ghost use Rattle.list_library.specs.Stored.{IsFit, FitsSchema};
    ghost use Rattle.indexed_file.specs.Sound.{is_file};
    ghost use Rattle.indexed_file.specs.FileChange.{addition, replacement, removal};
    ghost use Rattle.list_library.specs.Stored.{ChangesStored, stored_changed};
    ghost use Rattle.indexed_file.specs.Answers.{area_after};

    /// A new file.
    pub fn new(alloc: Global, schema: Schema) -> Self
        ensures schema { result.schema ≡ schema }
        ensures file { result.file ≡ empty_file }
    {
        let _keys = schema.key_count();
        ListFile {
            schema,
            rows: Vec::new(alloc),
            next_stamp: 1,
        }
    }

    /// Its schema.
    pub fn schema(&self) -> &Schema
        ensures { result.now ≡ self.now.schema }
    {
        &self.schema
    }

    /// A file in memory is a file, whatever was done with it.
    pub fn is_sound(&self)
        ensures { IsTrue (is_file self.now.schema self.now.file) }
    {
        let _keys = self.schema.key_count();
    }

    /// The row of a place.
    fn row(&self, place: usize) -> &ListRow
        requires { place < length self.now.file.rows }
        ensures row { slice_get self.now.file.rows place ≡ Some result.now }
        ensures fit { IsFit self.now.schema (length result.now.bytes) }
    {
        &self.rows[place]
    }

    /// The row of least rank by key k among those wanted: what is told of it, and its record in the
    /// front of the area.
    pub fn find(&self, k: u8, wanted: &Wanted, area: &mut [u8]) -> Option<Found>
        requires key { k < length self.now.schema.keys }
        requires length { length area.old ≡ self.now.schema.greatest }
        ensures found { result ≡ found_wanted self.now.schema k wanted.now self.now.file }
        ensures area { area.new ≡ area_after area.old
            (first_wanted self.now.schema k wanted.now self.now.file) }
    {
        let place = lowest(&self.schema, k, wanted, self.rows.as_slice())?;
        let row = self.row(place);
        read_into(area, row.bytes());
        Some(found_row(&self.schema, k, row, self.rows.as_slice()))
    }

    /// The full value of key k of the row of least rank by that key among those wanted.
    pub fn seek(&self, k: u8, wanted: &Wanted) -> Option<Key>
        requires { k < length self.now.schema.keys }
        ensures { result ≡ key_wanted self.now.schema k wanted.now self.now.file }
    {
        let place = lowest(&self.schema, k, wanted, self.rows.as_slice())?;
        let row = self.row(place);
        Some(self.schema.extract(row.bytes(), k))
    }

    /// The greatest prime value.
    pub fn highest(&self) -> Option<Key>
        ensures { option_map (λ key. key.items) result ≡ highest_of self.now.schema self.now.file.rows }
    {
        let place = highest(&self.schema, self.rows.as_slice())?;
        let row = self.row(place);
        Some(self.schema.extract(row.bytes(), 0))
    }

    /// Adds a record, unless its value of a key that has to be unique is there. `Full` where the
    /// stamps have run out; at `Full` and at `Memory` nothing is changed.
    pub fn add(&mut self, alloc: Global, bytes: &[u8]) -> Result<Added, Fault>
        requires { FitsSchema self.old.schema bytes.now }
        ensures { ChangesStored (addition self.old.schema bytes.now) self.old self.new result }
    {
        if clashes(&self.schema, bytes, self.rows.as_slice()) {
            return Ok(Added::Clash);
        }
        if self.next_stamp >= STAMPS_END {
            return Err(Fault::Full);
        }
        let repeated = repeats(&self.schema, bytes, self.rows.as_slice());
        let row = ListRow::new(alloc, &self.schema, self.next_stamp, bytes)?;
        insert_row(&self.schema, &mut self.rows, row)?;
        self.next_stamp += 1;
        Ok(Added::Done { repeated })
    }

    /// Puts a record in the place of that of its prime value. `Full` where a stamp is needed and
    /// they have run out; at `Full` and at `Memory` nothing is changed.
    pub fn replace(&mut self, alloc: Global, bytes: &[u8]) -> Result<Replaced, Fault>
        requires { FitsSchema self.old.schema bytes.now }
        ensures { ChangesStored (replacement self.old.schema bytes.now) self.old self.new result }
    {
        let prime = value(&self.schema, 0, bytes);
        let Some(place) = lowest(&self.schema, 0, &Wanted::Equal(prime), self.rows.as_slice())
        else {
            return Ok(Replaced::Gone);
        };
        if clashes_besides(&self.schema, bytes, self.rows.as_slice()) {
            return Ok(Replaced::Clash);
        }
        let takes = takes_stamp(&self.schema, self.rows[place].bytes(), bytes);
        if lacks_stamp(takes, self.next_stamp) {
            return Err(Fault::Full);
        }
        let repeated = repeats_changed(
            &self.schema,
            self.rows[place].bytes(),
            bytes,
            self.rows.as_slice(),
        );
        let row = self.rows[place].changed(alloc, &self.schema, self.next_stamp, bytes)?;
        self.rows[place] = row;
        self.next_stamp = stamp_after(takes, self.next_stamp);
        Ok(Replaced::Done { repeated })
    }

    /// Takes out the record of a prime value, and tells whether there was one.
    pub fn remove(&mut self, prime: &[u8]) -> bool
        ensures there { result ≡ (removal self.old.schema prime.now).answer self.old.file }
        ensures file { self.new ≡ stored_changed (removal self.old.schema prime.now) self.old }
    {
        if !has_row(&self.schema, prime, self.rows.as_slice()) {
            return false;
        }
        remove_rows(&self.schema, prime, &mut self.rows);
        true
    }
}

/// Whether a stamp is needed and they have run out.
fn lacks_stamp(takes: bool, next_stamp: u64) -> bool
    ensures { result ≡ (takes && nat_le (2 ^ 63) next_stamp) }
{
    takes && next_stamp >= STAMPS_END
}

/// The next stamp after one is taken, or none.
fn stamp_after(takes: bool, next_stamp: u64) -> u64
    requires room { IsFalse (takes && nat_le (2 ^ 63) next_stamp) }
    requires limit { next_stamp ≤ 2 ^ 63 }
    ensures after { result ≡ (if takes then next_stamp + 1 else next_stamp) }
    ensures limit { result ≤ 2 ^ 63 }
{
    if takes { next_stamp + 1 } else { next_stamp }
}

/// Whether there is a row of a prime value.
#[tactic(auto, using(crate::proofs::ScanLemmas::some_row))]
fn has_row(schema: &Schema, prime: &[u8], rows: &[ListRow]) -> bool
    ensures { result ≡ is_some (lowest schema.now 0 (filter (has_value schema.now 0 prime.now) rows.now)) }
{
    let place = lowest(schema, 0, &Wanted::Equal(prime), rows);
    place.is_some()
}

/// Takes out the rows of a prime value.
fn remove_rows(schema: &Schema, prime: &[u8], rows: &mut Vec<ListRow>)
    ensures { rows.new.items ≡ others_in schema.now prime.now rows.old.items }
{
    rows.retain(|row| value(schema, 0, row.bytes()) != prime);
}

/// Puts a row at its place by the prime key.
#[tactic(auto, using(crate::proofs::ChangeLemmas::inserted_at))]
fn insert_row(schema: &Schema, rows: &mut Vec<ListRow>, row: ListRow) -> Result<(), Fault>
    ensures inserted { OnOk result (rows.new.items ≡ inserted schema.now row rows.old.items) }
    ensures only_memory { IsOkUnless result Fault.Memory }
    ensures err { OnErr result (rows.new.items ≡ rows.old.items) }
{
    let place = place_for(schema, row.bytes(), rows.as_slice());
    if rows.insert(place, row).is_err() {
        return Err(Fault::Memory);
    }
    Ok(())
}

/// How many rows come before a new one, by the prime key.
fn place_for(schema: &Schema, bytes: &[u8], rows: &[ListRow]) -> usize
    ensures within { result ≤ length rows.now }
    ensures place { result ≡ prefix_len (λ next. is_up_to schema.now bytes.now next) rows.now }
{
    let prime = value(schema, 0, bytes);
    rows.iter()
        .take_while(|next| !prime.cmp(value(schema, 0, next.bytes())).is_lt())
        .count()
}

/// Puts a record in the front of an area.
fn read_into(area: &mut [u8], bytes: &[u8])
    requires { length bytes.now ≤ length area.old }
    ensures { area.new ≡ read_into area.old bytes.now }
{
    area[..bytes.len()].copy_from_slice(bytes);
}

/// What is told of a row that was found by key k.
fn found_row(schema: &Schema, k: u8, row: &ListRow, rows: &[ListRow]) -> Found
    requires key { k < length schema.now.keys }
    requires fit { IsFit schema.now (length row.now.bytes) }
    ensures { result ≡ found_in schema.now k rows.now row.now }
{
    Found {
        key: schema.extract(row.bytes(), k),
        stamp: row.stamp(k),
        repeated: is_repeated(schema, k, row, rows),
        length: row.bytes().len() as u16,
    }
}
