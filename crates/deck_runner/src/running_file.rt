//! A file of a run.
ghost use Rattle.std.specs.Prelude.{◌≡◌, ◌≤◌, ◌+◌, length as count_of, IsTrue, is_some, option_map, IfSome};
ghost use Rattle.record_layout.specs.Area.{is_taken_by, moved, sent};
ghost use Rattle.verbs.specs.Held.{record_delivered};
ghost use Rattle.verbs.specs.Fits.{Fits, HasOperands};
ghost use Rattle.verbs.specs.Performed.{IsPerformed};
ghost use Rattle.deck_runner.specs.Running.{schema_of, running_file_in, SameFile};

use indexed_file::Library;
use io_state::{FileStatement, Name};
use record_layout::{Field, Source, put};
use std::marker::Model;
use verbs::{Answer, Connector};

/// A file of a run: its name, the place of the length item that its records depend on, its
/// connector and its record area.
#[derive(Drop)]
pub struct RunningFile {
    name: Name,
    depends_on: Option<usize>,
    connector: Connector,
    area: Vec<u8>,
}

impl Model for RunningFile {
    ghost use Rattle.deck_runner.specs.Running.{Running};

    ghost Value = { Running };

    ghost use Rattle.deck_runner.specs.RunningFields.{running_of, IsRunningFile};

    ghost view = { running_of };

    ghost invariant = { IsRunningFile };
}

impl RunningFile {
    /// A file with this area, which is as long as the greatest record.
    pub fn new(name: Name, depends_on: Option<usize>, connector: Connector, area: Vec<u8>) -> Self
        requires area { count_of area.items ≡ connector.connector.schema.greatest }
        requires short { count_of area.items ≤ 4000 }
        ensures { result ≡ record {
          name = name.bytes;
          depends_on = depends_on;
          held = connector;
          area = area.items;
        } }
    {
        RunningFile {
            name,
            depends_on,
            connector,
            area,
        }
    }

    /// The file's name in the deck.
    pub fn name(&self) -> &[u8]
        ensures name { result.now ≡ self.now.name }
        ensures short { count_of result.now ≤ 30 }
    {
        self.name.as_str().as_bytes()
    }

    /// The place of the length item that its records depend on.
    pub fn depends_on(&self) -> Option<usize>
        ensures { result ≡ self.now.depends_on }
    {
        self.depends_on
    }

    /// Whether its connector is open.
    pub fn is_open(&self) -> bool
        ensures { result ≡ is_some self.now.held.connector.session }
    {
        self.connector.is_open()
    }

    /// The greatest length of a record.
    pub fn greatest(&self) -> u16
        ensures greatest { result ≡ (schema_of self.now).greatest }
        ensures limit { result ≤ 4000 }
    {
        self.area.len() as u16
    }

    /// The record of this length that a READ has delivered into the area.
    pub fn delivered(&self, length: Option<u16>) -> Option<&[u8]>
        ensures record { option_map (λ bytes. bytes.now) result ≡ record_delivered self.now.area «length» }
        ensures short { IfSome result (λ bytes. count_of bytes.now ≤ 4000) }
    {
        let length = length?;
        Some(&self.area[..usize::from(length).min(self.area.len())])
    }

    /// Performs a statement on the file, which is that of unit u of the library.
    pub fn perform<L: Library>(
        &mut self,
        library: &mut L,
        u: usize,
        statement: &FileStatement,
        length: u16,
    ) -> Answer
        requires fits { Fits self.old.held (L.shown.world library.old) u }
        requires key { HasOperands (schema_of self.old) statement.now }
        ensures performed { IsPerformed L.shown u statement.now «length»
            (running_file_in self.old library.old)
            result (running_file_in self.new library.new) }
        ensures same { SameFile self.old self.new }
        ensures limit { (schema_of self.old).greatest ≤ 4000 }
        ensures short { count_of self.old.area ≤ 4000 }
    {
        self.connector
            .perform(library, u, statement, length, &mut self.area)
    }

    /// MOVE to an item of the record.
    pub fn put(&mut self, field: Field, source: &Source<&[u8]>)
        requires within { field.offset + field.length ≤ (schema_of self.old).greatest }
        requires taken { IsTrue (is_taken_by field.numeric (sent source.now)) }
        ensures { self.new ≡ record self.old { area = moved field (sent source.now) self.old.area } }
    {
        put(&mut self.area, field, source);
    }
}
