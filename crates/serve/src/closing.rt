//! The open files are closed.
ghost use Rattle.std.specs.Prelude.{◌≡◌, [], None, IfSome};
ghost use Rattle.serve.specs.Steps.{ClosesFirst};

use crate::place;
use crate::session::Session;
use indexed_file::GrowingLibrary;
use io_state::Status;

impl<L: GrowingLibrary + Drop> Session<L> {
    /// Closes the open file that was opened first. None where no file is open.
    pub fn close_first(&mut self) -> Option<Status>
        ensures closed { IfSome result (λ status. ClosesFirst L.shown self.old status self.new) }
        ensures none { result ≡ None → (self.old.table.opened ≡ []) × (self.new ≡ self.old) }
    {
        let number = self.order.first()?;
        let status = place::close(&mut self.files[usize::from(number)], &mut self.library)?;
        self.order.note(number, false);
        Some(status)
    }
}
