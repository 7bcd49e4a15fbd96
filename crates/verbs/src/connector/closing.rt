//! CLOSE.
ghost use Rattle.std.specs.Prelude.{◌≡◌, None};
ghost use Rattle.io_state.specs.declared.statement.FileStatement.TheVariants.{Close};
ghost use Rattle.verbs.specs.Fits.{Fits};
ghost use Rattle.verbs.specs.Performed.{PerformsWithout};

use super::Connector;
use crate::checks::{close_fault, close_status};
use indexed_file::Library;
use io_state::Status;

impl Connector {
    /// CLOSE. The connector is closed after every answer.
    pub fn close<L: Library>(&mut self, lib: &mut L, u: usize, lock: bool) -> Status
        requires fits { Fits self.old (L.shown.world lib.old) u }
        ensures performed { PerformsWithout L.shown u (Close lock)
            self.old lib.old result self.new lib.new }
        ensures closed { self.new.connector.session ≡ None }
    {
        let Some(_mode) = self.mode else {
            return Status::NotOpen;
        };
        let failed = self.failed;
        let missing = self.missing;
        self.end(lock);
        if missing {
            return close_status(failed);
        }
        match lib.shut(u) {
            Ok(()) => close_status(failed),
            Err(fault) => close_fault(failed, fault),
        }
    }
}
