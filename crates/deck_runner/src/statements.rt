//! The statements of a run.
ghost use Rattle.std.specs.Prelude.{◌≡◌};
ghost use Rattle.deck_runner.specs.Steps.{is_stop};
ghost use Rattle.deck_runner.specs.State.{state};
ghost use Rattle.deck_runner.specs.Parts.{CanRun, RunsPart, VerbOn, Single, UpToStop};

use crate::held_lines::make_way;
use crate::run_end::RunEnd;
use crate::running_deck::RunningDeck;
use deck_reader::Statement;
use indexed_file::Library;
use io_state::FileStatement;
use std::io::Write;
use streams::{HeldText, Refused};

/// STOP RUN.
fn is_stop(statement: &Statement) -> bool
    ensures { result ≡ is_stop statement.now }
{
    matches!(statement, Statement::StopRun)
}

impl RunningDeck {
    /// Performs a statement on the file of a place, and adds its line to those that are held.
    /// Before a statement that may change a file the writer takes all of them; where it refuses
    /// one, the statement is not performed.
    pub fn run_verb<L: Library, W: Write>(
        &mut self,
        u: usize,
        statement: &FileStatement,
        library: &mut L,
        held: &mut HeldText,
        out: &mut W,
    ) -> Result<RunEnd, Refused>
        requires { CanRun L.shown (VerbOn u statement.now) (state library.old self.old) }
        ensures { RunsPart L.shown W.contents (VerbOn u statement.now)
            (library.old, self.old, held.old, out.old)
            (library.new, self.new, held.new, out.new) result }
    {
        make_way(held, statement, out)?;
        let clean = self.perform_on(u, statement, library);
        held.add(self.line.as_slice(), out)?;
        Ok(RunEnd::one(clean))
    }

    /// Performs a statement, and adds its line to those that are held, if it has one.
    fn run_statement<L: Library, W: Write>(
        &mut self,
        statement: &Statement,
        library: &mut L,
        held: &mut HeldText,
        out: &mut W,
    ) -> Result<RunEnd, Refused>
        requires { CanRun L.shown (Single statement.now) (state library.old self.old) }
        ensures { RunsPart L.shown W.contents (Single statement.now)
            (library.old, self.old, held.old, out.old)
            (library.new, self.new, held.new, out.new) result }
    {
        match statement {
            Statement::Perform { file, statement } => self.run_verb(
                *file, statement, library, held, out,
            ),
            Statement::Move {
                file,
                field,
                source,
            } => {
                let file = &mut self.files[*file];
                file.put(*field, &source.as_ref());
                Ok(RunEnd::none())
            }
            Statement::MoveLength { item, source } => {
                let item = &mut self.items[*item];
                item.put(&source.as_ref());
                Ok(RunEnd::none())
            }
            Statement::StopRun => Ok(RunEnd::none()),
        }
    }

    /// Performs the statements up to STOP RUN.
    pub fn run_to_stop<L: Library, W: Write>(
        &mut self,
        statements: &[Statement],
        library: &mut L,
        held: &mut HeldText,
        out: &mut W,
    ) -> Result<RunEnd, Refused>
        requires { CanRun L.shown (UpToStop statements.now) (state library.old self.old) }
        ensures { RunsPart L.shown W.contents (UpToStop statements.now)
            (library.old, self.old, held.old, out.old)
            (library.new, self.new, held.new, out.new) result }
    {
        let mut end = RunEnd::none();
        for statement in statements {
            let stop = is_stop(statement);
            if stop {
                return Ok(end);
            }
            match self.run_statement(statement, library, held, out) {
                Ok(more) => end = end.followed_by(more),
                Err(refused) => return Err(refused),
            }
        }
        Ok(end)
    }
}
