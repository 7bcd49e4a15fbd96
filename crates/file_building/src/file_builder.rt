//! A file that is built from records.

ghost use Rattle.std.specs.Prelude.{◌≡◌, ◌<◌, ◌^◌};
ghost use Rattle.record_layout.specs.Schema.{key_at};
ghost use Rattle.file_building.specs.Rows.{slots_built, width_built};
ghost use Rattle.file_building.specs.Opening.{IsShapeFor};

use crate::alternates::build_alternates;
use crate::kept_fronts::KeptFronts;
use crate::opening::open_parts;
use crate::rows_builder::RowsBuilder;
use crate::stamps::{heap_shape, new_stamps};
use io_state::{Fault, Key};
use open_file::OpenFile;
use pages::Pages;
use record_layout::Schema;
use std::alloc::Global;

/// So many records are too many: the stamp behind theirs is none that can come.
const TOO_MANY: u64 = 1 << 63;

/// What became of a record.
#[derive(Clone, Copy, Debug, PartialEq, Eq)]
pub enum Pushed {
    /// It stands behind the others.
    Done,
    /// Its prime value does not come after that of the record before it. Nothing was done.
    OutOfOrder,
}

/// What became of the records.
#[derive(Drop)]
pub enum Built {
    /// The file that they make, added one after another.
    File(OpenFile),
    /// One of them has the value of another in an alternate key that is to be unique. There is no
    /// file, and pages may be taken.
    Clash,
}

/// A file that is being built from records whose prime values rise.
///
/// Of each record the heap and the prime index are written as it comes. What is kept of it in
/// memory is its front: as many bytes as the shortest record has, in which all its keys are. Where
/// memory does not suffice for all fronts, none is kept, and at the end the rows are read again, several
/// times for each alternate key.
#[derive(Drop)]
pub struct FileBuilder {
    pub(crate) schema: Schema,
    pub(crate) rows: RowsBuilder,
    pub(crate) fronts: KeptFronts,
    // The prime value of the last record.
    pub(crate) last: Key,
    pub(crate) count: u64,
    ghost slots: { IsShapeFor schema (slots_built rows) },
    ghost width: { width_built rows ≡ (key_at schema 0).length },
    ghost few: { count < 2 ^ 63 },
}

impl FileBuilder {
    ghost use Rattle.bplus_tree.specs.Changes.{CanWrite};
    ghost use Rattle.file_building.specs.Building.{IsNewBuilder, CanPushRecord, TakesRecordBehind, TakesRisingRecord};
    ghost use Rattle.file_building.specs.Building.{FinishesFile, builder_schema};

    /// A file without records, of which no page is taken yet. At most `memory` bytes are to be held of
    /// the records.
    pub fn new(alloc: Global, schema: &Schema, memory: usize) -> FileBuilder
        ensures { IsNewBuilder schema.now result }
    {
        let shape = heap_shape(schema);
        FileBuilder {
            schema: schema.copy(),
            rows: RowsBuilder::new(alloc, shape, schema.part(0).length),
            fronts: KeptFronts::new(alloc, usize::from(schema.least()), memory),
            last: Key::new(),
            count: 0,
        }
    }

    /// The schema that it is built for.
    pub fn schema(&self) -> &Schema
        ensures { result.now ≡ builder_schema self.now }
    {
        &self.schema
    }

    /// Puts a record behind all others, where its prime value comes after theirs. After a fault
    /// nothing is known of the file.
    ///
    /// Device; Full where no page is left; Memory, also where there are 2^63 - 1 records.
    pub fn push<P: Pages>(&mut self, pages: &mut P, record: &[u8]) -> Result<Pushed, Fault>
        requires { CanPushRecord P.shown self.old «record».now pages.old }
        ensures { TakesRecordBehind P.shown pages.old pages.new self.old self.new «record».now result }
    {
        let value = self.schema.value(record, 0);
        if !self.last.as_slice().cmp(value).is_lt() {
            return Ok(Pushed::OutOfOrder);
        }
        self.put(pages, record)?;
        Ok(Pushed::Done)
    }

    /// Writes what is not written yet, makes the index of each alternate key, and answers the file.
    /// A fault may leave pages taken.
    ///
    /// Device; Full where no page is left; Memory, also where it does not suffice for one entry.
    pub fn finish<P: Pages>(self, alloc: Global, pages: &mut P) -> Result<Built, Fault>
        requires { CanWrite P.shown pages.old }
        ensures { FinishesFile P.shown pages.old pages.new self result }
    {
        let FileBuilder {
            schema,
            rows,
            fronts,
            last: _,
            count,
        } = self;
        let rows = rows.finish(alloc, pages)?;
        let alternates = match build_alternates(alloc, pages, &schema, &rows, count, &fronts)? {
            Some(alternates) => alternates,
            None => return Ok(Built::Clash),
        };
        // Each page in use has a number below the count, which a header can tell.
        let _pages = pages.count();
        let opened = open_parts(&schema, count + 1, &rows.heap, &rows.prime, &alternates)?;
        Ok(Built::File(opened))
    }

    /// Puts a record behind all others, whose prime value comes after theirs.
    fn put<P: Pages>(&mut self, pages: &mut P, record: &[u8]) -> Result<(), Fault>
        requires { CanPushRecord P.shown self.old «record».now pages.old }
        ensures { TakesRisingRecord P.shown pages.old pages.new self.old self.new «record».now result }
    {
        let stamp = self.count + 1;
        if stamp >= TOO_MANY {
            return Err(Fault::Memory);
        }
        let stamps = new_stamps(&self.schema, stamp);
        let value = self.schema.value(record, 0);
        self.rows.push(pages, value, stamps.as_slice(), record)?;
        let least = usize::from(self.schema.least());
        self.fronts.push(&record[..least]);
        self.last = self.schema.extract(record, 0);
        self.count = stamp;
        Ok(())
    }
}
