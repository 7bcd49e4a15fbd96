//! An input-output statement on a file of the run.
ghost use Rattle.std.specs.Prelude.{◌≡◌, length, min, not, option_map};
ghost use Rattle.verbs.specs.Faults.{is_unclean};
ghost use Rattle.deck_runner.specs.Run.{items_after_read};
ghost use Rattle.deck_runner.specs.Running.{IsItemPlace, schema_of, length_for};
ghost use Rattle.deck_runner.specs.State.{state};
ghost use Rattle.deck_runner.specs.RunEnd.{MakesLine};
ghost use Rattle.deck_runner.specs.Parts.{CanRun, VerbOn};

use crate::line::make_line;
use crate::running_deck::RunningDeck;
use crate::running_file::RunningFile;
use crate::running_item::RunningItem;
use indexed_file::Library;
use io_state::{FileStatement, Status};

/// One more than any record of a file has.
const PAST_ALL_RECORDS: u64 = 65_535;

/// Whether no fault stands in the line of a statement.
fn is_clean(statement: &FileStatement, status: Status) -> bool
    ensures { result ≡ not (is_unclean statement.now status) }
{
    match status {
        Status::BoundaryViolation
        | Status::PermanentError
        | Status::OutOfMemory
        | Status::ConnectorFailed => false,
        Status::Damaged => matches!(statement, FileStatement::Open(_)),
        _ => true,
    }
}

/// The length that WRITE and REWRITE give a record of the file; one that is too long for any file is cut.
fn record_length(items: &[RunningItem], file: &RunningFile) -> u16
    requires { IsItemPlace (length items.now) file.now.depends_on }
    ensures { result ≡ min (length_for items.now (schema_of file.now) file.now.depends_on) 65535 }
{
    match file.depends_on() {
        None => file.greatest(),
        Some(item) => items[item].value().min(PAST_ALL_RECORDS) as u16,
    }
}

/// Moves the length of a record that was delivered to the item that the file depends on.
fn note_length(items: &mut [RunningItem], depends_on: Option<usize>, delivered: Option<&[u8]>)
    requires { IsItemPlace (length items.old) depends_on }
    ensures { items.new ≡ items_after_read depends_on
        (option_map (λ bytes. bytes.now) delivered.entry) items.old }
{
    if let (Some(item), Some(bytes)) = (depends_on, delivered) {
        items[item].note(bytes.len());
    }
}

impl RunningDeck {
    /// Performs a statement on the file of a place, which is that of the library's unit of that
    /// number, and makes its line. Tells whether the line is clean.
    pub fn perform_on<L: Library>(
        &mut self,
        u: usize,
        statement: &FileStatement,
        library: &mut L,
    ) -> bool
        requires { CanRun L.shown (VerbOn u statement.now) (state library.old self.old) }
        ensures { MakesLine L.shown (state library.old self.old) (state library.new self.new)
            u statement.now result }
    {
        let file = &mut self.files[u];
        let length = record_length(&self.items, file);
        let answer = file.perform(library, u, statement, length);
        let delivered = file.delivered(answer.length);
        make_line(
            &mut self.line,
            statement,
            file.name(),
            answer.status,
            delivered,
        );
        note_length(&mut self.items, file.depends_on(), delivered);
        is_clean(statement, answer.status)
    }
}
