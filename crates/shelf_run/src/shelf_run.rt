//! The run.
ghost use Rattle.std.specs.Prelude.{IfOk, IfErr};
ghost use Rattle.std.specs.NonZero.{non_zero_usize_get};
ghost use Rattle.shelf_run.specs.ShelfRun.{CanRunOn, IsExactOn, HasRunOn, HasBrokenOffOn, IsRefusedOn};
ghost use Rattle.shelf_run.specs.ShelfRun.{StaysSound};

use deck_runner::{RunEnd, RunFault, run_deck};
use page_store::Shelf;
use shelf_library::ShelfLibrary;
use std::alloc::Global;
use std::io::Write;
use std::num::NonZeroUsize;

/// Runs the deck that the bytes are over the files of a shelf to which no name is attached, and
/// gives the shelf back. A file has at most `limit` pages of 4,096 bytes, of which at most `frames`
/// are held in memory while it is open.
///
/// A run whose end is clean has written exactly the transcript of the definitions, and its files
/// represent what they leave, where the shelf is honest: in each world that the deck's files
/// represented at the start. Where whatever a crash may leave of them was sound then, it is so at
/// each moment. `Deck`, `Memory` and `Output` are as for `run_deck`.
pub fn run_on_shelf<S: Shelf, W: Write>(
    alloc: Global,
    bytes: &[u8],
    shelf: S,
    limit: u32,
    frames: NonZeroUsize,
    out: &mut W,
) -> (S, Result<RunEnd, RunFault>)
    requires { CanRunOn limit (S.state shelf) }
    ensures exact { IfOk result.1 (IsExactOn S.state W.contents bytes.now shelf result.0 out.old out.new) }
    ensures run { IfOk result.1 (HasRunOn S.state S.fault_count W.contents bytes.now
        limit (non_zero_usize_get frames) shelf result.0 out.old out.new) }
    ensures output { IfErr result.1 (HasBrokenOffOn S.state S.fault_count W.contents bytes.now
        limit (non_zero_usize_get frames) shelf result.0 out.old out.new) }
    ensures refused { IfErr result.1 (IsRefusedOn S.state bytes.now shelf result.0 out.old out.new) }
    ensures sound { StaysSound (S.state shelf) (S.state result.0) }
{
    let mut library = ShelfLibrary::new(alloc, shelf, limit, frames);
    let end = run_deck(alloc, bytes, &mut library, out);
    (library.into_shelf(), end)
}
