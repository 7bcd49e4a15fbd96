//! A unit in memory.

use crate::list_file::ListFile;
use crate::wanted::Wanted;
use indexed_file::{Added, Found, Replaced, Seen};
use io_state::{Fault, FileName, Key};
use record_layout::Schema;
use std::alloc::Global;
use std::marker::Model;

/// What a unit is doing with its file.
#[derive(Clone, Copy, Debug, PartialEq, Eq)]
pub enum UnitState {
    IsShut,
    IsLooked,
    IsOpened,
    IsBroken,
}

/// A name, and the file that stands there.
#[derive(Drop)]
pub struct ListUnit {
    name: FileName,
    file: Option<ListFile>,
    /// The file was changed, and was not shut since.
    changed: bool,
    state: UnitState,
}

impl Model for ListUnit {
    ghost use Rattle.std.specs.Prelude.{not, ◌&&◌, IsTrue};
    ghost use Rattle.indexed_file.specs.World.{FileUnit};

    ghost Value = { FileUnit };

    ghost use Rattle.list_library.specs.Units.{unit_by, is_looked_state};

    ghost view = { λ u. unit_by u.name.bytes u.file u.changed u.state };

    ghost invariant = { λ u. IsTrue (not (is_looked_state u.state && u.changed)) };
}

impl ListUnit {
    ghost use Rattle.std.specs.Prelude.{◌≡◌, bytes_eq, option_map, OnOk, OnErr, IfOk, IsTrue, IsFalse};
    ghost use Rattle.indexed_file.specs.File.{empty_file};
    ghost use Rattle.indexed_file.specs.World.{Absent, Unsound as Refused, Shut, Opened, is_open, is_looked};
    ghost use Rattle.indexed_file.specs.World.{opened_from, schema_in};
    ghost use Rattle.indexed_file.specs.FileChange.{addition, replacement, removal};
    ghost use Rattle.list_library.specs.Units.{AnswersBroken, ChangesHeld, unit_after_shut, highest_in};
    ghost use Rattle.list_library.specs.HeldCalls.{MaySeekIn, MayFindIn, MayPutInto, FindsWanted};
    ghost use Rattle.list_library.specs.HeldCalls.{SeeksWanted};
    ghost use Rattle.indexed_file.specs.SoundWorld.{is_sound_unit};
    ghost use Rattle.indexed_file.specs.Answers.{seen_of, looked_at};

    /// A name that stands for nothing.
    pub fn absent(name: FileName) -> Self
        ensures { result ≡ record { name = name.bytes; named = Absent; holding = Shut } }
    {
        ListUnit {
            name,
            file: None,
            changed: false,
            state: UnitState::IsShut,
        }
    }

    /// Whether it has the name of another unit.
    pub fn has_name_of(&self, other: &ListUnit) -> bool
        ensures { result ≡ bytes_eq self.now.name other.now.name }
    {
        self.name.as_bytes() == other.name.as_bytes()
    }

    /// What a unit in memory shows is a file, whatever was done with it.
    pub fn is_sound(&self)
        ensures { IsTrue (is_sound_unit self.now) }
    {
        if let Some(file) = &self.file {
            file.is_sound();
        }
    }

    /// Forgets what the unit holds.
    pub fn forget(&mut self)
        ensures { self.new ≡ record self.old { holding = Shut } }
    {
        self.state = UnitState::IsShut;
    }

    /// What the name stands for.
    pub fn look(&mut self) -> Seen
        requires { IsFalse (is_open self.old.holding) }
        ensures seen { result ≡ seen_of self.old.named }
        ensures unit { self.new ≡ record self.old { holding = looked_at result } }
    {
        self.state = UnitState::IsShut;
        if self.changed {
            return Seen::Unsound;
        }
        match &self.file {
            None => Seen::Absent,
            Some(file) => {
                let schema = file.schema().copy();
                self.state = UnitState::IsLooked;
                Seen::Sound(schema)
            }
        }
    }

    /// Opens a new file in the place of whatever the name stands for.
    pub fn create(&mut self, alloc: Global, schema: Schema)
        ensures { self.new ≡ record self.old { named = Refused; holding = Opened schema empty_file } }
    {
        self.file = Some(ListFile::new(alloc, schema));
        self.changed = true;
        self.state = UnitState::IsOpened;
    }

    /// Opens the file that the look just before found sound.
    pub fn open(&mut self)
        requires { IsTrue (is_looked self.old.holding) }
        ensures unit { self.new ≡ record self.old { holding = opened_from self.old.named } }
        ensures opened { IsTrue (is_open self.new.holding) }
        ensures schema { schema_in self.new.holding ≡ schema_in self.old.holding }
    {
        self.state = UnitState::IsOpened;
    }

    /// The row of least rank by key k among those wanted: what is told of it, and its record in the
    /// front of the area.
    pub fn find(&self, k: u8, wanted: &Wanted, area: &mut [u8]) -> Result<Option<Found>, Fault>
        requires { MayFindIn self.now.holding k area.old }
        ensures { FindsWanted self.now.holding k wanted.now area.old area.new result }
    {
        if self.state == UnitState::IsBroken {
            return Err(Fault::Broken);
        }
        match &self.file {
            None => Err(Fault::Broken),
            Some(file) => Ok(file.find(k, wanted, area)),
        }
    }

    /// The full value of key k of the row of least rank by that key among those wanted.
    pub fn seek(&self, k: u8, wanted: &Wanted) -> Result<Option<Key>, Fault>
        requires { MaySeekIn self.now.holding k }
        ensures { SeeksWanted self.now.holding k wanted.now result }
    {
        if self.state == UnitState::IsBroken {
            return Err(Fault::Broken);
        }
        match &self.file {
            None => Err(Fault::Broken),
            Some(file) => Ok(file.seek(k, wanted)),
        }
    }

    /// The greatest prime value.
    pub fn highest(&self) -> Result<Option<Key>, Fault>
        requires { IsTrue (is_open self.now.holding) }
        ensures found { IfOk result (λ found. option_map
            (λ key. key.items) found ≡ highest_in self.now.holding) }
        ensures fault { AnswersBroken self.now.holding result }
    {
        if self.state == UnitState::IsBroken {
            return Err(Fault::Broken);
        }
        match &self.file {
            None => Err(Fault::Broken),
            Some(file) => Ok(file.highest()),
        }
    }

    /// Adds a record, unless its value of a key that has to be unique is there. At `Full` nothing
    /// is changed, and after `Memory` the unit is broken.
    pub fn add(&mut self, alloc: Global, bytes: &[u8]) -> Result<Added, Fault>
        requires { MayPutInto self.old.holding bytes.now }
        ensures { ChangesHeld (addition (schema_in self.old.holding) bytes.now) self.old self.new result }
    {
        if self.state == UnitState::IsBroken {
            return Err(Fault::Broken);
        }
        let Some(file) = &mut self.file else {
            return Err(Fault::Broken);
        };
        match file.add(alloc, bytes) {
            Ok(Added::Clash) => Ok(Added::Clash),
            Ok(Added::Done { repeated }) => {
                self.changed = true;
                Ok(Added::Done { repeated })
            }
            Err(Fault::Full) => Err(Fault::Full),
            Err(fault) => {
                self.state = UnitState::IsBroken;
                Err(fault)
            }
        }
    }

    /// Puts a record in the place of that of its prime value. At `Full` nothing is changed, and
    /// after `Memory` the unit is broken.
    pub fn replace(&mut self, alloc: Global, bytes: &[u8]) -> Result<Replaced, Fault>
        requires { MayPutInto self.old.holding bytes.now }
        ensures { ChangesHeld (replacement (schema_in self.old.holding) bytes.now) self.old self.new result }
    {
        if self.state == UnitState::IsBroken {
            return Err(Fault::Broken);
        }
        let Some(file) = &mut self.file else {
            return Err(Fault::Broken);
        };
        match file.replace(alloc, bytes) {
            Ok(Replaced::Gone) => Ok(Replaced::Gone),
            Ok(Replaced::Clash) => Ok(Replaced::Clash),
            Ok(Replaced::Done { repeated }) => {
                self.changed = true;
                Ok(Replaced::Done { repeated })
            }
            Err(Fault::Full) => Err(Fault::Full),
            Err(fault) => {
                self.state = UnitState::IsBroken;
                Err(fault)
            }
        }
    }

    /// Takes out the record of a prime value, and tells whether there was one.
    pub fn remove(&mut self, prime: &[u8]) -> Result<bool, Fault>
        requires { IsTrue (is_open self.old.holding) }
        ensures { ChangesHeld (removal (schema_in self.old.holding) prime.now) self.old self.new result }
    {
        if self.state == UnitState::IsBroken {
            return Err(Fault::Broken);
        }
        let Some(file) = &mut self.file else {
            return Err(Fault::Broken);
        };
        if !file.remove(prime) {
            return Ok(false);
        }
        self.changed = true;
        Ok(true)
    }

    /// Closes the unit; a file that was changed is then what its name stands for. A broken unit
    /// answers so, and its name stays.
    pub fn shut(&mut self) -> Result<(), Fault>
        requires { IsTrue (is_open self.old.holding) }
        ensures ok { OnOk result (self.new ≡ unit_after_shut self.old) }
        ensures err { OnErr result (self.new ≡ record self.old { holding = Shut }) }
        ensures fault { AnswersBroken self.old.holding result }
    {
        let broken = self.state == UnitState::IsBroken;
        self.state = UnitState::IsShut;
        if broken {
            return Err(Fault::Broken);
        }
        self.changed = false;
        Ok(())
    }
}
