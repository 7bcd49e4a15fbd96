//! OPEN.
ghost use Rattle.std.specs.Prelude.{◌≡◌, ◌⊎◌, None};
ghost use Rattle.io_state.specs.declared.statement.FileStatement.TheVariants.{Open};
ghost use Rattle.verbs.specs.Fits.{Fits, MayOpenAbsent, MayOpenSound, MayCreate};
ghost use Rattle.verbs.specs.Performed.{PerformsWithout};
ghost use Rattle.verbs.specs.Parts.{OpensBy, opening_absent, opening_sound, creating};

use super::Connector;
use crate::checks::{is_input, is_output, status_of};
use indexed_file::{Library, Seen};
use io_state::{Key, OpenMode, Position, Status};
use record_layout::Schema;

impl Connector {
    /// OPEN.
    pub fn open<L: Library>(&mut self, lib: &mut L, u: usize, mode: OpenMode) -> Status
        requires fits { Fits self.old (L.shown.world lib.old) u }
        ensures { PerformsWithout L.shown u (Open mode)
            self.old lib.old result self.new lib.new }
    {
        if self.mode.is_some() {
            self.was_read = false;
            return Status::AlreadyOpen;
        }
        if self.locked {
            return Status::ClosedWithLock;
        }
        let output = is_output(mode);
        if output {
            return self.create(lib, u, mode, Status::Successful);
        }
        match lib.look(u) {
            Ok(Seen::Absent) => self.open_absent(lib, u, mode),
            Ok(Seen::Unsound) => Status::Damaged,
            Ok(Seen::Sound(schema)) => self.open_sound(lib, u, mode, &schema),
            Err(fault) => status_of(fault),
        }
    }

    /// OPEN of a file that is absent, other than OUTPUT.
    fn open_absent<L: Library>(&mut self, lib: &mut L, u: usize, mode: OpenMode) -> Status
        requires { MayOpenAbsent mode self.old (L.shown.world lib.old) u }
        ensures { OpensBy L.shown u (opening_absent mode)
            self.old lib.old result self.new lib.new }
    {
        if !self.optional {
            return Status::FileAbsent;
        }
        let input = is_input(mode);
        if input {
            self.begin(mode, Position::Missing, true, None);
            return Status::OptionalAbsent;
        }
        self.create(lib, u, mode, Status::OptionalAbsent)
    }

    /// OPEN of a file whose first page was found sound, with this schema. Its greatest prime value
    /// is not asked for yet.
    fn open_sound<L: Library>(
        &mut self,
        lib: &mut L,
        u: usize,
        mode: OpenMode,
        schema: &Schema,
    ) -> Status
        requires { MayOpenSound mode schema.now self.old (L.shown.world lib.old) u }
        ensures opens { OpensBy L.shown u (opening_sound mode schema.now)
            self.old lib.old result self.new lib.new }
        ensures unasked { (self.new ≡ self.old) ⊎ (self.new.highest ≡ None) }
    {
        let same = schema.same(&self.schema);
        if !same {
            return Status::AttributeConflict;
        }
        match lib.open(u) {
            Ok(()) => {
                self.begin(mode, Position::From(Key::new()), false, None);
                Status::Successful
            }
            Err(fault) => status_of(fault),
        }
    }

    /// OPEN that makes a new file, which has no greatest prime value.
    fn create<L: Library>(
        &mut self,
        lib: &mut L,
        u: usize,
        mode: OpenMode,
        status: Status,
    ) -> Status
        requires { MayCreate status self.old (L.shown.world lib.old) u }
        ensures { OpensBy L.shown u (creating mode status)
            self.old lib.old result self.new lib.new }
    {
        match lib.create(u, &self.schema) {
            Ok(()) => {
                self.begin(mode, Position::From(Key::new()), false, Some(None));
                status
            }
            Err(fault) => status_of(fault),
        }
    }
}
