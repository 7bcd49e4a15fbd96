//! READ and START.
ghost use Rattle.std.specs.Prelude.{ℕ};
ghost use Rattle.io_state.specs.declared.statement.FileStatement.TheVariants.{ReadNext, Read, Start};
ghost use Rattle.verbs.specs.Fits.{MayPerform};
ghost use Rattle.verbs.specs.Performed.{AnswersInto, AnswersFrom};

use super::Connector;
use crate::admission::{Purpose, admit};
use crate::answer::Answer;
use crate::checks::{is_invalid, status_of};
use indexed_file::Library;
use io_state::{Relation, Status};

impl Connector {
    /// READ, sequential: the next record by the key of reference.
    pub(super) fn answer_read_next<L: Library>(
        &mut self,
        lib: &mut L,
        u: usize,
        area: &mut [u8],
    ) -> Answer
        requires { MayPerform ReadNext self.old (L.shown.world lib.old) u area.old }
        ensures { (n : ℕ) → AnswersInto L.shown u ReadNext n
            self.old lib.old area.old result self.new lib.new area.new }
    {
        self.was_read = false;
        match admit(Purpose::Reading, self.access, self.mode, self.failed) {
            Ok(_) => {}
            Err(status) => return Answer::silent(status),
        }
        let lost = is_invalid(&self.position);
        if lost {
            return Answer::silent(Status::NoNextRecord);
        }
        if self.missing {
            return Answer::silent(self.lose(Status::AtEnd));
        }
        let key = self.key;
        match lib.next(u, key, &self.position, area) {
            Ok(Some(found)) => self.deliver(key, &found, area),
            Ok(None) => Answer::silent(self.lose(Status::AtEnd)),
            Err(fault) => Answer::silent(self.lose(status_of(fault))),
        }
    }

    /// READ by a key: the first record whose key has the value that stands in the area.
    pub(super) fn answer_read<L: Library>(
        &mut self,
        lib: &mut L,
        u: usize,
        k: u8,
        area: &mut [u8],
    ) -> Answer
        requires { MayPerform (Read k) self.old (L.shown.world lib.old) u area.old }
        ensures { (n : ℕ) → AnswersInto L.shown u (Read k) n
            self.old lib.old area.old result self.new lib.new area.new }
    {
        self.was_read = false;
        match admit(Purpose::Reading, self.access, self.mode, self.failed) {
            Ok(_) => {}
            Err(status) => return Answer::silent(status),
        }
        if self.missing {
            return Answer::silent(self.lose(Status::RecordNotFound));
        }
        let wanted = self.value(area, k);
        match lib.by_key(u, k, &wanted, area) {
            Ok(Some(found)) => self.deliver(k, &found, area),
            Ok(None) => Answer::silent(self.lose(Status::RecordNotFound)),
            Err(fault) => Answer::silent(self.lose(status_of(fault))),
        }
    }

    /// START: the first record the first bytes of whose key are so related to those that stand in the area.
    pub(super) fn answer_start<L: Library>(
        &mut self,
        lib: &mut L,
        u: usize,
        k: u8,
        length: u16,
        relation: Relation,
        area: &[u8],
    ) -> Status
        requires { MayPerform (Start k length relation) self.old (L.shown.world lib.old) u area.now }
        ensures { (n : ℕ) → AnswersFrom L.shown u (Start k length relation) n
            self.old lib.old area.now result self.new lib.new }
    {
        self.was_read = false;
        match admit(Purpose::Reading, self.access, self.mode, self.failed) {
            Ok(_) => {}
            Err(status) => return status,
        }
        if self.missing {
            return self.lose(Status::RecordNotFound);
        }
        let value = self.value(area, k);
        let operand = &value.as_slice()[..usize::from(length).min(value.len())];
        match lib.seek(u, k, operand, relation) {
            Ok(Some(found)) => {
                self.stand_at(k, found);
                Status::Successful
            }
            Ok(None) => self.lose(Status::RecordNotFound),
            Err(fault) => self.lose(status_of(fault)),
        }
    }
}
