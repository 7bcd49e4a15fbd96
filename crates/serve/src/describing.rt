//! Files are described, and given up.
ghost use Rattle.std.specs.Prelude.{◌≡◌, OnOk, IfOk, IfSome, IfErr, IsFalse, None, replicate, bytes_eq};
ghost use Rattle.std.specs.List.{position};
ghost use Rattle.std.specs.Prelude.{length as count_of};
ghost use Rattle.serve.specs.Request.{described_of};
ghost use Rattle.serve.specs.Files.{is_free_number, is_named_file, IsVacant};
ghost use Rattle.serve.specs.Steps.{Describes, RefusesDescription, ReleasesOrRefuses};
ghost use Rattle.serve.specs.Steps.{schema_described, file_described, GivesUnit, LibraryStays};
ghost use Rattle.serve.specs.Steps.{StaysRefused};

use crate::described_file::DescribedFile;
use crate::file_description::FileDescription;
use crate::place;
use crate::request_refusal::RequestRefusal;
use crate::session::Session;
use indexed_file::GrowingLibrary;
use io_state::{FileName, file_name_of};
use record_layout::Schema;
use std::alloc::{AllocError, Global};
use verbs::Connector;

/// A record area of spaces.
fn blank_area(alloc: Global, length: u16) -> Result<Vec<u8>, AllocError>
    ensures blank { IfOk result (λ area. area.items ≡ replicate «length» 32) }
    ensures length { IfOk result (λ area. count_of area.items ≡ «length») }
{
    let mut area = Vec::new(alloc);
    area.resize(usize::from(length), b' ')?;
    Ok(area)
}

/// The file of a description, which is this unit.
fn described_file(
    description: &FileDescription<'_>,
    name: FileName,
    unit: usize,
    schema: Schema,
    area: Vec<u8>,
) -> DescribedFile
    requires name { name.bytes ≡ (described_of description.now).name }
    requires schema { schema ≡ schema_described (described_of description.now) }
    requires area { area.items ≡ replicate schema.greatest 32 }
    requires length { count_of area.items ≡ schema.greatest }
    ensures { result ≡ file_described (described_of description.now) unit }
{
    let key_count = schema.key_count();
    let connector = Connector::new(description.access, description.optional, schema);
    DescribedFile::new(name, unit, connector, key_count, area)
}

/// The place of a name among these.
fn place_of_name(names: &[FileName], name: &FileName) -> Option<usize>
    ensures { result ≡ position (λ other. bytes_eq other.bytes name.now.bytes) names.now }
{
    names.iter().position(|other| other == name)
}

impl<L: GrowingLibrary + Drop> Session<L> {
    /// Whether the number is one of a session, and of no file.
    fn is_free(&self, number: u8) -> bool
        ensures { result ≡ is_free_number self.now.table number }
    {
        self.has_place(number) && self.files[usize::from(number)].is_none()
    }

    /// Whether a file has the name.
    fn is_named(&self, name: &[u8]) -> bool
        ensures { result ≡ is_named_file self.now.table name.now }
    {
        self.files.iter().any(|place| place::has_name(place, name))
    }

    /// The unit of a name that no described file has: one that was let go, or a new one. None where
    /// memory was refused.
    fn give_unit(&mut self, name: &FileName) -> Option<usize>
        requires unnamed { IsFalse (is_named_file self.old.table name.now.bytes) }
        ensures gives { IfSome result (λ unit. GivesUnit L.shown L.keeps_open name.now.bytes unit
            self.old.library self.new.library) }
        ensures vacant { IfSome result (IsVacant self.new.table) }
        ensures none { result ≡ None → LibraryStays L.shown self.old.library self.new.library }
        ensures table { self.new.table ≡ self.old.table }
    {
        if let Some(unit) = place_of_name(&self.names, name) {
            return Some(unit);
        }
        self.names.reserve(1).ok()?;
        let unit = self.names.len();
        self.library.add_unit(name).ok()?;
        if self.names.push(*name).is_err() {
            unreachable!()
        }
        Some(unit)
    }

    /// Gives a number to the file of a description. The file is closed, and its record area all
    /// spaces. Where memory is refused, what the library shows stays.
    pub fn describe(&mut self, description: &FileDescription<'_>) -> Result<(), RequestRefusal>
        ensures described { OnOk result (Describes L.shown L.keeps_open (described_of description.now)
            self.old self.new) }
        ensures refused { IfErr result (RefusesDescription self.old.table (described_of description.now)) }
        ensures err { IfErr result (λ why. StaysRefused L.shown why self.old self.new) }
    {
        if !self.is_free(description.file) {
            return Err(RequestRefusal::Number);
        }
        let schema = Schema::from_parts(description.least, description.greatest, &description.keys);
        let (Some(schema), Some(name)) = (schema, file_name_of(description.name)) else {
            return Err(RequestRefusal::Description);
        };
        if self.is_named(description.name) {
            return Err(RequestRefusal::Name);
        }
        let Ok(area) = blank_area(self.alloc, schema.greatest()) else {
            return Err(RequestRefusal::Memory);
        };
        let Some(unit) = self.give_unit(&name) else {
            return Err(RequestRefusal::Memory);
        };
        let file = described_file(description, name, unit, schema, area);
        place::put(&mut self.files[usize::from(description.file)], file);
        Ok(())
    }

    /// Gives up the file of a number, which is free again. The library lets it go.
    pub fn release(&mut self, number: u8) -> Result<(), RequestRefusal>
        ensures { ReleasesOrRefuses L.shown L.keeps_open number self.old self.new result }
    {
        if !self.has_place(number) {
            return Err(RequestRefusal::Number);
        }
        let place = &mut self.files[usize::from(number)];
        let unit = place::closed_unit(place)?;
        self.library.let_go(unit);
        place::clear(place);
        Ok(())
    }
}
