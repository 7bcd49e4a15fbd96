//! A verb is performed.
ghost use Rattle.serve.specs.Request.{performed_of};
ghost use Rattle.serve.specs.Steps.{PerformsOrRefuses};

use crate::place;
use crate::request_refusal::RequestRefusal;
use crate::session::Session;
use crate::statement::Performance;
use indexed_file::GrowingLibrary;
use verbs::Answer;

impl<L: GrowingLibrary + Drop> Session<L> {
    /// Puts the bytes into the beginning of the file's record area, and performs the statement.
    /// `record` has the record that was delivered.
    pub fn perform(&mut self, performance: &Performance<'_>) -> Result<Answer, RequestRefusal>
        ensures { PerformsOrRefuses L.shown (performed_of performance.now) self.old self.new result }
    {
        if !self.has_place(performance.file) {
            return Err(RequestRefusal::Number);
        }
        let place = &mut self.files[usize::from(performance.file)];
        let answer = place::perform(place, &mut self.library, performance)?;
        self.order.note(performance.file, place::is_open(place));
        Ok(answer)
    }
}
