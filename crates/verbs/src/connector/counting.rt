//! Verbs that begin the count of the pages that they ask for.
ghost use Rattle.std.specs.Prelude.{ℕ};
ghost use Rattle.io_state.specs.declared.statement.FileStatement.TheVariants.{ReadNext, Read, Start, Write};
ghost use Rattle.io_state.specs.declared.statement.FileStatement.TheVariants.{Rewrite, Delete};
ghost use Rattle.verbs.specs.Counted.{CountsAnew};
ghost use Rattle.verbs.specs.Fits.{Fits, MayPerform};
ghost use Rattle.verbs.specs.Performed.{PerformsInto, PerformsFrom};

use super::Connector;
use crate::answer::Answer;
use indexed_file::Library;
use io_state::{Relation, Status};

impl Connector {
    /// Begins the count of pages, where the file is open.
    fn begin_count<L: Library>(&self, lib: &mut L, u: usize)
        requires { Fits self.now (L.shown.world lib.old) u }
        ensures count { CountsAnew L.shown u lib.old lib.new }
        ensures fits { Fits self.now (L.shown.world lib.new) u }
    {
        if self.mode.is_some() && !self.missing {
            lib.restart_count(u);
        }
    }

    /// READ, sequential: the next record by the key of reference.
    pub fn read_next<L: Library>(&mut self, lib: &mut L, u: usize, area: &mut [u8]) -> Answer
        requires { MayPerform ReadNext self.old (L.shown.world lib.old) u area.old }
        ensures { (n : ℕ) → PerformsInto L.shown u ReadNext n
            self.old lib.old area.old result self.new lib.new area.new }
    {
        self.begin_count(lib, u);
        self.answer_read_next(lib, u, area)
    }

    /// READ by a key: the first record whose key has the value that stands in the area.
    pub fn read<L: Library>(&mut self, lib: &mut L, u: usize, k: u8, area: &mut [u8]) -> Answer
        requires { MayPerform (Read k) self.old (L.shown.world lib.old) u area.old }
        ensures { (n : ℕ) → PerformsInto L.shown u (Read k) n
            self.old lib.old area.old result self.new lib.new area.new }
    {
        self.begin_count(lib, u);
        self.answer_read(lib, u, k, area)
    }

    /// START: the first record the first bytes of whose key are so related to those that stand in the area.
    pub fn start<L: Library>(
        &mut self,
        lib: &mut L,
        u: usize,
        k: u8,
        length: u16,
        relation: Relation,
        area: &[u8],
    ) -> Status
        requires { MayPerform (Start k length relation) self.old (L.shown.world lib.old) u area.now }
        ensures { (n : ℕ) → PerformsFrom L.shown u (Start k length relation) n
            self.old lib.old area.now result self.new lib.new }
    {
        self.begin_count(lib, u);
        self.answer_start(lib, u, k, length, relation, area)
    }

    /// WRITE of the record in the first `length` bytes of the area.
    pub fn write<L: Library>(&mut self, lib: &mut L, u: usize, area: &[u8], length: u16) -> Status
        requires { MayPerform Write self.old (L.shown.world lib.old) u area.now }
        ensures { PerformsFrom L.shown u Write length
            self.old lib.old area.now result self.new lib.new }
    {
        self.begin_count(lib, u);
        self.answer_write(lib, u, area, length)
    }

    /// REWRITE by the record in the first `length` bytes of the area.
    pub fn rewrite<L: Library>(&mut self, lib: &mut L, u: usize, area: &[u8], length: u16) -> Status
        requires { MayPerform Rewrite self.old (L.shown.world lib.old) u area.now }
        ensures { PerformsFrom L.shown u Rewrite length
            self.old lib.old area.now result self.new lib.new }
    {
        self.begin_count(lib, u);
        self.answer_rewrite(lib, u, area, length)
    }

    /// DELETE: in sequential access of the record read last, else of the record of the prime value
    /// that stands in the area.
    pub fn delete<L: Library>(&mut self, lib: &mut L, u: usize, area: &[u8]) -> Status
        requires { MayPerform Delete self.old (L.shown.world lib.old) u area.now }
        ensures { (n : ℕ) → PerformsFrom L.shown u Delete n
            self.old lib.old area.now result self.new lib.new }
    {
        self.begin_count(lib, u);
        self.answer_delete(lib, u, area)
    }
}
