//! A described file.
ghost use Rattle.std.specs.Prelude.{◌≡◌, ◌≤◌, ◌++◌, drop, length as count_of, true, false, not, nat_lt};
ghost use Rattle.std.specs.Prelude.{bytes_eq, unwrap_or, [], None};
ghost use Rattle.io_state.specs.declared.statement.FileStatement.TheVariants.{Close};
ghost use Rattle.verbs.specs.Held.{record_delivered, silent};
ghost use Rattle.verbs.specs.Fits.{Fits};
ghost use Rattle.serve.specs.Files.{NumberedFile, schema_of_file, is_open_file};
ghost use Rattle.serve.specs.Steps.{is_of_keys, PerformsWith, ShowsRecord};

use indexed_file::Library;
use io_state::{FileName, FileStatement, Status};
use std::marker::Model;
use verbs::{Answer, Connector};

/// A described file: its name, the unit that it is, its connector and how many keys it has, and its
/// record area.
#[derive(Drop)]
pub struct DescribedFile {
    name: FileName,
    unit: usize,
    connector: Connector,
    key_count: usize,
    area: Vec<u8>,
}

/// Puts the bytes into the beginning of a record area.
fn put_first(area: &mut [u8], bytes: &[u8])
    requires room { count_of bytes.now ≤ count_of area.old }
    ensures put { area.new ≡ bytes.now ++ drop (count_of bytes.now) area.old }
    ensures length { count_of area.new ≡ count_of area.old }
{
    area[..bytes.len()].copy_from_slice(bytes);
}

impl Model for DescribedFile {
    ghost use Rattle.serve.specs.Files.{NumberedFile};

    ghost Value = { NumberedFile };

    ghost use Rattle.serve.specs.Fields.{numbered_file, IsInside};

    ghost view = { numbered_file };

    ghost invariant = { IsInside };
}

impl DescribedFile {
    /// A file with this connector, which is a unit of that number.
    pub fn new(
        name: FileName,
        unit: usize,
        connector: Connector,
        key_count: usize,
        area: Vec<u8>,
    ) -> Self
        requires keys { key_count ≡ count_of connector.connector.schema.keys }
        requires area { count_of area.items ≡ connector.connector.schema.greatest }
        requires short { count_of area.items ≤ 4000 }
        ensures { result ≡ record { name = name.bytes; unit = unit; held = connector; area = area.items } }
    {
        DescribedFile {
            name,
            unit,
            connector,
            key_count,
            area,
        }
    }

    /// The unit that it is.
    pub fn unit(&self) -> usize
        ensures { result ≡ self.now.unit }
    {
        self.unit
    }

    /// Whether this is its name.
    pub fn has_name(&self, name: &[u8]) -> bool
        ensures { result ≡ bytes_eq name.now self.now.name }
    {
        name == self.name.as_str().as_bytes()
    }

    /// Whether it is open.
    pub fn is_open(&self) -> bool
        ensures { result ≡ is_open_file self.now }
    {
        self.connector.is_open()
    }

    /// Whether the key of a READ or START is one of the file.
    pub fn has_key(&self, statement: &FileStatement) -> bool
        ensures { result ≡ is_of_keys (schema_of_file self.now) statement.now }
    {
        match *statement {
            FileStatement::Read { key } => usize::from(key) < self.key_count,
            FileStatement::Start { key, .. } => usize::from(key) < self.key_count,
            _ => true,
        }
    }

    /// Whether the record area has room for the bytes.
    pub fn has_room(&self, bytes: &[u8]) -> bool
        ensures { result ≡ not (nat_lt (count_of self.now.area) (count_of bytes.now)) }
    {
        bytes.len() <= self.area.len()
    }

    /// Puts the bytes into the beginning of the record area, and performs a statement.
    pub fn perform<L: Library>(
        &mut self,
        library: &mut L,
        statement: &FileStatement,
        length: u16,
        bytes: &[u8],
    ) -> Answer
        requires fits { Fits self.old.held (L.shown.world library.old) self.old.unit }
        requires key { is_of_keys (schema_of_file self.old) statement.now ≡ true }
        requires room { count_of bytes.now ≤ count_of self.old.area }
        ensures { PerformsWith L.shown statement.now «length» bytes.now library.old self.old result
            library.new self.new }
    {
        put_first(&mut self.area, bytes);
        self.connector
            .perform(library, self.unit, statement, length, &mut self.area)
    }

    /// Performs CLOSE.
    pub fn close<L: Library>(&mut self, library: &mut L) -> Status
        requires fits { Fits self.old.held (L.shown.world library.old) self.old.unit }
        ensures closes { PerformsWith L.shown (Close false) 0 [] library.old self.old (silent result)
            library.new self.new }
        ensures closed { is_open_file self.new ≡ false }
    {
        self.connector.close(library, self.unit, false)
    }

    /// The record that an answer has delivered into the area, of no bytes where it delivered none.
    pub fn record(&self, length: Option<u16>) -> &[u8]
        ensures { ShowsRecord (unwrap_or (record_delivered self.now.area «length») []) result.now }
    {
        match length {
            Some(length) => &self.area[..usize::from(length).min(self.area.len())],
            None => &[],
        }
    }
}
