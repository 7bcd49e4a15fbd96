//! The closes at the end of a run.
ghost use Rattle.std.specs.Prelude.{◌<◌};
ghost use Rattle.deck_runner.specs.State.{state};
ghost use Rattle.deck_runner.specs.Parts.{CanRun, RunsPart, CloseOf, AllCloses};

use crate::run_end::RunEnd;
use crate::running_deck::RunningDeck;
use indexed_file::Library;
use io_state::FileStatement;
use std::io::Write;
use streams::{HeldText, Refused};

impl RunningDeck {
    /// Closes the file of a place, if it is still open, and adds its line to those that are held.
    fn close_file<L: Library, W: Write>(
        &mut self,
        u: usize,
        library: &mut L,
        held: &mut HeldText,
        out: &mut W,
    ) -> Result<RunEnd, Refused>
        requires { CanRun L.shown (CloseOf u) (state library.old self.old) }
        ensures { RunsPart L.shown W.contents (CloseOf u)
            (library.old, self.old, held.old, out.old)
            (library.new, self.new, held.new, out.new) result }
    {
        let file = &self.files[u];
        let open = file.is_open();
        if !open {
            return Ok(RunEnd::none());
        }
        let close = FileStatement::Close { lock: false };
        self.run_verb(u, &close, library, held, out)
    }

    /// Closes the files that are still open.
    pub fn close_all<L: Library, W: Write>(
        &mut self,
        library: &mut L,
        held: &mut HeldText,
        out: &mut W,
    ) -> Result<RunEnd, Refused>
        requires { CanRun L.shown AllCloses (state library.old self.old) }
        ensures { RunsPart L.shown W.contents AllCloses
            (library.old, self.old, held.old, out.old)
            (library.new, self.new, held.new, out.new) result }
    {
        let mut end = RunEnd::none();
        for u in 0..self.files.len() {
            match self.close_file(u, library, held, out) {
                Ok(more) => end = end.followed_by(more),
                Err(refused) => return Err(refused),
            }
        }
        Ok(end)
    }
}
