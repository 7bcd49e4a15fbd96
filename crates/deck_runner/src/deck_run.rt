//! The run of the bytes of a deck.
ghost use Rattle.std.specs.Prelude.{IfOk, IfErr};
ghost use Rattle.indexed_file.specs.Calls.{Keeps};
ghost use Rattle.deck_reader.specs.CanBeRun.{CanBeRun};
ghost use Rattle.deck_runner.specs.DeckRun.{IsExactIfClean, HasRunWhole, HasRunInPart, HasDoneNothing};
ghost use Rattle.deck_runner.specs.DeckRun.{IsRefusedDeck, RunsRead};

use crate::beginning::begin;
use crate::fault::RunFault;
use crate::run_end::RunEnd;
use deck_reader::{Deck, read_deck};
use indexed_file::Library;
use std::alloc::Global;
use std::io::Write;
use streams::{HeldText, Refused};

/// Runs a deck that was read. `Output` and `Memory` are as for its bytes.
fn run_read<L: Library, W: Write>(
    alloc: Global,
    deck: &Deck,
    library: &mut L,
    out: &mut W,
) -> Result<RunEnd, RunFault>
    requires { CanBeRun deck.now }
    ensures { RunsRead L.shown W.contents deck.now library.old library.new out.old out.new result }
{
    let Ok(held) = HeldText::new(alloc) else {
        return Err(RunFault::Memory);
    };
    let Ok(begun) = begin(alloc, deck, library) else {
        return Err(RunFault::Memory);
    };
    let mut held = held;
    let mut begun = begun;
    match begun.run(deck.statements.as_slice(), library, &mut held, out) {
        Ok(end) => Ok(end),
        Err(_) => Err(RunFault::Output),
    }
}

/// Runs the deck that the bytes are over the files of the library: its statements in order up to
/// STOP RUN, and then the closes of the files still open, in the order of their SELECT entries.
/// Each statement on a file has its line in `out`.
///
/// A run whose end is clean has written exactly the transcript of the definitions, and each file
/// name of the deck stands for what they leave. `Deck`: the bytes are no deck, and nothing was
/// written or changed. `Memory`: memory was wanted before the first statement, and nothing was
/// written or changed. `Output`: the writer refused a line; it holds all lines before it and a
/// proper front of it. Nothing was performed behind the statement of that line but READ and START,
/// which change no file: no close either.
pub fn run_deck<L: Library, W: Write>(
    alloc: Global,
    bytes: &[u8],
    library: &mut L,
    out: &mut W,
) -> Result<RunEnd, RunFault>
    ensures exact { IfOk result (IsExactIfClean L.shown W.contents bytes.now
        library.old library.new out.old out.new) }
    ensures run { IfOk result (HasRunWhole L.shown W.contents bytes.now
        library.old library.new out.old out.new) }
    ensures output { IfErr result (HasRunInPart L.shown W.contents bytes.now
        library.old library.new out.old out.new) }
    ensures nothing { IfErr result (HasDoneNothing L.shown library.old library.new out.old out.new) }
    ensures refused { IfErr result (IsRefusedDeck bytes.now) }
    ensures keeps { Keeps L.shown library.old library.new }
{
    match read_deck(alloc, bytes) {
        Ok(deck) => run_read(alloc, &deck, library, out),
        Err(fault) => Err(RunFault::of(fault)),
    }
}
