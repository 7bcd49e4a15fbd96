//! WRITE.
ghost use Rattle.std.specs.Prelude.{◌≡◌, ◌<◌, length as count_of, false, OnErr};
ghost use Rattle.record_layout.specs.Schema.{prime_of};
ghost use Rattle.indexed_file.specs.Room.{most_to_seek};
ghost use Rattle.io_state.specs.Permission.{is_sequential};
ghost use Rattle.io_state.specs.declared.statement.FileStatement.TheVariants.{Write};
ghost use Rattle.verbs.specs.Held.{held_after_store};
ghost use Rattle.verbs.specs.Fits.{Fits, knows_late, IsAboutToChange, LacksHighest, MayPerform, MayPut};
ghost use Rattle.verbs.specs.Fits.{MayStore};
ghost use Rattle.indexed_file.specs.UnitCalls.{ReadsUnit};
ghost use Rattle.verbs.specs.Performed.{AnswersFrom};
ghost use Rattle.verbs.specs.Parts.{PutsRecord, StoresRecord, LearnsOfFile};

use super::Connector;
use crate::admission::{Purpose, admit};
use crate::checks::{is_length, is_not_above, is_sequential, status_by};
use indexed_file::{Added, Library};
use io_state::{Fault, Status};

impl Connector {
    /// WRITE of the record in the first `length` bytes of the area.
    pub(super) fn answer_write<L: Library>(
        &mut self,
        lib: &mut L,
        u: usize,
        area: &[u8],
        length: u16,
    ) -> Status
        requires { MayPerform Write self.old (L.shown.world lib.old) u area.now }
        ensures { AnswersFrom L.shown u Write length
            self.old lib.old area.now result self.new lib.new }
    {
        self.was_read = false;
        match admit(Purpose::Writing, self.access, self.mode, self.failed) {
            Ok(_) => {}
            Err(status) => return status,
        }
        let fit = is_length(&self.schema, length);
        if !fit {
            return Status::WrongLength;
        }
        self.put(lib, u, &area[..usize::from(length)])
    }

    /// Adds a record, whose prime value has to be above the greatest of the file in sequential access.
    fn put<L: Library>(&mut self, lib: &mut L, u: usize, bytes: &[u8]) -> Status
        requires { MayPut self.old (L.shown.world lib.old) u bytes.now }
        ensures { PutsRecord L.shown u bytes.now self.old lib.old result self.new lib.new }
    {
        let known = self.is_late(bytes);
        if known {
            return Status::OutOfSequence;
        }
        if let Err(fault) = self.learn_highest(lib, u) {
            return self.fail(fault);
        }
        let late = self.is_late(bytes);
        if late {
            return Status::OutOfSequence;
        }
        self.store(lib, u, bytes)
    }

    /// In sequential access asks for the greatest prime value of the file, unless it is known.
    fn learn_highest<L: Library>(&mut self, lib: &mut L, u: usize) -> Result<(), Fault>
        requires { IsAboutToChange self.old (L.shown.world lib.old) u }
        ensures kept { Fits self.new (L.shown.world lib.new) u × (self.new.connector ≡ self.old.connector) }
        ensures known { LearnsOfFile L.shown u self.old lib.old self.new lib.new result }
        ensures others { is_sequential self.old.connector.access ≡ false → self.new ≡ self.old }
        ensures err { OnErr result ((self.new ≡ self.old) × LacksHighest self.old) }
        ensures reads { ReadsUnit L.shown u (most_to_seek (L.shown.room lib.old u) 0) lib.old lib.new result }
    {
        let sequential = is_sequential(self.access);
        if !sequential || self.highest.is_some() {
            return Ok(());
        }
        match lib.highest(u) {
            Ok(highest) => {
                self.highest = Some(highest);
                Ok(())
            }
            Err(fault) => Err(fault),
        }
    }

    /// In sequential access the record's prime value is not above the greatest of the file, where
    /// that is known.
    fn is_late(&self, bytes: &[u8]) -> bool
        requires { 0 < count_of self.now.connector.schema.keys }
        ensures { result ≡ knows_late self.now bytes.now }
    {
        let Some(highest) = &self.highest else {
            return false;
        };
        let sequential = is_sequential(self.access);
        if !sequential {
            return false;
        }
        let prime = self.value(bytes, 0);
        is_not_above(&prime, highest)
    }

    /// Adds a record.
    fn store<L: Library>(&mut self, lib: &mut L, u: usize, bytes: &[u8]) -> Status
        requires { MayStore self.old (L.shown.world lib.old) u bytes.now }
        ensures { StoresRecord L.shown u bytes.now self.old lib.old result self.new lib.new }
    {
        match lib.add(u, bytes) {
            Ok(Added::Done { repeated }) => {
                self.note_stored(bytes);
                status_by(repeated)
            }
            Ok(Added::Clash) => Status::DuplicateKey,
            Err(Fault::Full) => Status::BoundaryViolation,
            Err(fault) => self.fail(fault),
        }
    }

    /// Takes note of a record that was added: in sequential access its prime value is the greatest.
    fn note_stored(&mut self, bytes: &[u8])
        requires { 0 < count_of self.old.connector.schema.keys }
        ensures { self.new ≡ held_after_store self.old (prime_of self.old.connector.schema bytes.now) }
    {
        let sequential = is_sequential(self.access);
        if sequential {
            self.highest = Some(Some(self.value(bytes, 0)));
        } else if self.highest.is_some() {
            self.highest = None;
        }
    }
}
