//! REWRITE and DELETE.
ghost use Rattle.std.specs.Prelude.{◌≡◌, ◌<◌, ℕ, length as count_of, false};
ghost use Rattle.io_state.specs.declared.statement.FileStatement.TheVariants.{Rewrite, Delete};
ghost use Rattle.verbs.specs.Refusals.{is_refusal};
ghost use Rattle.verbs.specs.Faults.{is_boundary_violation};
ghost use Rattle.verbs.specs.Performed.{AnswersFrom};
ghost use Rattle.verbs.specs.Parts.{MakesUpdate, rewriting, deleting};
ghost use Rattle.verbs.specs.Held.{last_read_in, prime_to_delete_by};
ghost use Rattle.verbs.specs.Fits.{MayPerform, MaySubstitute, MayTakeOut};

use super::Connector;
use crate::admission::{Purpose, admit};
use crate::checks::{changes_prime, is_length, is_sequential, is_unread, status_by};
use indexed_file::{Library, Replaced, copy_of};
use io_state::{Fault, Key, Status};

impl Connector {
    /// REWRITE by the record in the first `length` bytes of the area.
    pub(super) fn answer_rewrite<L: Library>(
        &mut self,
        lib: &mut L,
        u: usize,
        area: &[u8],
        length: u16,
    ) -> Status
        requires { MayPerform Rewrite self.old (L.shown.world lib.old) u area.now }
        ensures { AnswersFrom L.shown u Rewrite length
            self.old lib.old area.now result self.new lib.new }
    {
        let was_read = self.was_read;
        self.was_read = false;
        match admit(Purpose::Updating, self.access, self.mode, self.failed) {
            Ok(_) => {}
            Err(status) => return status,
        }
        let fit = is_length(&self.schema, length);
        let unread = is_unread(self.access, was_read);
        if unread {
            return Status::NoRecordRead;
        }
        if !fit {
            return Status::WrongLength;
        }
        let bytes = &area[..usize::from(length)];
        let prime = self.value(bytes, 0);
        let other = changes_prime(self.access, &prime, was_read, &self.last_read);
        if other {
            return Status::OutOfSequence;
        }
        self.substitute(lib, u, bytes)
    }

    /// Puts a record in the place of that of its prime value.
    fn substitute<L: Library>(&mut self, lib: &mut L, u: usize, bytes: &[u8]) -> Status
        requires { MaySubstitute self.old (L.shown.world lib.old) u bytes.now }
        ensures updates { MakesUpdate L.shown u (rewriting bytes.now)
            self.old lib.old result self.new lib.new }
        ensures late { is_refusal Rewrite result ≡ false }
    {
        match lib.replace(u, bytes) {
            Ok(Replaced::Done { repeated }) => {
                self.forget_highest();
                status_by(repeated)
            }
            Ok(Replaced::Clash) => Status::DuplicateKey,
            Ok(Replaced::Gone) => Status::RecordNotFound,
            Err(Fault::Full) => Status::BoundaryViolation,
            Err(fault) => self.fail(fault),
        }
    }

    /// DELETE: in sequential access of the record read last, else of the record of the prime value
    /// that stands in the area.
    pub(super) fn answer_delete<L: Library>(&mut self, lib: &mut L, u: usize, area: &[u8]) -> Status
        requires { MayPerform Delete self.old (L.shown.world lib.old) u area.now }
        ensures { (n : ℕ) → AnswersFrom L.shown u Delete n
            self.old lib.old area.now result self.new lib.new }
    {
        let was_read = self.was_read;
        self.was_read = false;
        match admit(Purpose::Updating, self.access, self.mode, self.failed) {
            Ok(_) => {}
            Err(status) => return status,
        }
        let unread = is_unread(self.access, was_read);
        if unread {
            return Status::NoRecordRead;
        }
        let prime = self.prime_to_delete(was_read, &self.last_read, area);
        self.take_out(lib, u, &prime)
    }

    /// The prime value of the record that DELETE takes out.
    fn prime_to_delete(&self, was_read: bool, last_read: &Key, area: &[u8]) -> Key
        requires { 0 < count_of self.now.connector.schema.keys }
        ensures { result.items ≡ prime_to_delete_by self.now area.now (last_read_in was_read last_read.now) }
    {
        let sequential = is_sequential(self.access);
        if sequential && was_read {
            return copy_of(last_read);
        }
        self.value(area, 0)
    }

    /// Takes out the record of a prime value.
    fn take_out<L: Library>(&mut self, lib: &mut L, u: usize, prime: &Key) -> Status
        requires { MayTakeOut self.old (L.shown.world lib.old) u }
        ensures updates { MakesUpdate L.shown u (deleting prime.now.items)
            self.old lib.old result self.new lib.new }
        ensures not_full { is_boundary_violation result ≡ false }
    {
        match lib.remove(u, prime) {
            Ok(true) => {
                self.forget_highest();
                Status::Successful
            }
            Ok(false) => Status::RecordNotFound,
            Err(fault) => self.fail(fault),
        }
    }
}
