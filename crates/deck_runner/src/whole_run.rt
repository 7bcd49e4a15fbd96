//! A whole run.
ghost use Rattle.std.specs.Prelude.{◌≡◌, []};
ghost use Rattle.deck_runner.specs.Steps.{CleanRunsAreExact};
ghost use Rattle.deck_runner.specs.Stretches.{CleanFrontsAreExact};
ghost use Rattle.deck_runner.specs.NoFalseFile.{NoFalseFile, ImagesAreOfLedger};
ghost use Rattle.deck_runner.specs.State.{state};
ghost use Rattle.deck_runner.specs.Parts.{CanRun, RunsAll, UpToStop};
ghost use Rattle.deck_runner.specs.Reads.{ReadsChangeNoFile};

use crate::run_end::RunEnd;
use crate::running_deck::RunningDeck;
use deck_reader::Statement;
use indexed_file::Library;
use std::io::Write;
use streams::{HeldText, Refused};

impl RunningDeck {
    /// Runs the statements up to STOP RUN, and then closes the files that are still open. Each
    /// statement that is performed has its line in `out`, where no line is held before. A refusal
    /// ends the run behind the statement of that line, or behind statements after it that only
    /// read.
    pub fn run<L: Library, W: Write>(
        &mut self,
        statements: &[Statement],
        library: &mut L,
        held: &mut HeldText,
        out: &mut W,
    ) -> Result<RunEnd, Refused>
        requires run { CanRun L.shown (UpToStop statements.now) (state library.old self.old) }
        requires none_held { held.old ≡ [] }
        ensures { RunsAll L.shown W.contents statements.now
            (library.old, self.old, held.old, out.old)
            (library.new, self.new, held.new, out.new) result }
    {
        let stopped = self.run_to_stop(statements, library, held, out)?;
        let closed = self.close_all(library, held, out)?;
        held.hand_over(out)?;
        Ok(stopped.followed_by(closed))
    }
}

/// A run whose lines are all clean is the definition's: no fault has marred a step of it.
pub fn clean_runs_are_exact()
    ensures { CleanRunsAreExact }
{}

/// In every run, also in one that was broken off, the lines before the first unclean one are the
/// first lines of the definition's.
pub fn clean_fronts_are_exact<L: Library>(_library: &L)
    ensures { CleanFrontsAreExact L.shown }
{}

/// In every run of steps with their stretches of time, each name stands by its ledger at each moment.
pub fn no_false_file<L: Library>(_library: &L)
    ensures { NoFalseFile L.shown }
{}

/// In so many words: where the images of a name at the start of the run are known, each image at
/// each moment is one of those and of those in its ledger, and behind the first CLOSE of a change
/// one of its ledger alone.
pub fn images_are_of_ledger<L: Library>(_library: &L)
    ensures { ImagesAreOfLedger L.shown }
{}

/// READ and START change no file: where a run was broken off, and all lines behind some are of
/// these, each file is as it was behind the statements of those.
pub fn reads_change_no_file<L: Library>(_library: &L)
    ensures { ReadsChangeNoFile L.shown }
{}
