//! A deck that is run over a shelf, or over lists.

ghost use Rattle.std.specs.Prelude.{◌≤◌};

use crate::decks::deck_of;
use deck_runner::{RunEnd, RunFault, run_deck};
use list_library::ListLibrary;
use memory_shelf::{Image, MemShelf};
use page_store::Shelf;
use shelf_run::run_on_shelf;
use std::alloc::Global;
use std::io::Write;
use std::num::NonZeroUsize;
use std::process::Abort;
use worked_decks::Worked;

/// The most pages of a file.
const LIMIT: u32 = 4000;

/// Runs a deck over a shelf, whose units are forgotten, with so many pages of a file at most, and gives the
/// shelf back with the end.
pub fn run_into<S: Shelf + Drop, W: Write>(
    rt: &impl Abort,
    alloc: Global,
    shelf: S,
    deck: &str,
    limit: u32,
    frames: usize,
    out: &mut W,
) -> (S, Result<RunEnd, RunFault>)
    requires { 16 ≤ limit }
{
    let mut shelf = shelf;
    shelf.attach(&[]).expect(rt, "memory");
    let frames = NonZeroUsize::new(frames).unwrap_or(NonZeroUsize::MIN);
    run_on_shelf(alloc, deck.as_bytes(), shelf, limit, frames, out)
}

/// The same, with the transcript.
pub fn run_within<S: Shelf + Drop>(
    rt: &impl Abort,
    alloc: Global,
    shelf: S,
    deck: &str,
    limit: u32,
    frames: usize,
) -> (S, String, Result<RunEnd, RunFault>)
    requires { 16 ≤ limit }
{
    let mut out: Vec<u8> = Vec::with_capacity(alloc, 1000).expect(rt, "memory");
    let (shelf, end) = run_into(rt, alloc, shelf, deck, limit, frames, &mut out);
    (shelf, String::from_utf8(out).expect(rt, "a text"), end)
}

/// The same with room for every worked deck.
pub fn run_to_end<S: Shelf + Drop>(
    rt: &impl Abort,
    alloc: Global,
    shelf: S,
    deck: &str,
    frames: usize,
) -> (S, String, Result<RunEnd, RunFault>) {
    run_within(rt, alloc, shelf, deck, LIMIT, frames)
}

/// A run that is not broken off.
pub fn run_over<S: Shelf + Drop>(
    rt: &impl Abort,
    alloc: Global,
    shelf: S,
    deck: &str,
    frames: usize,
) -> (S, String) {
    let (shelf, transcript, end) = run_to_end(rt, alloc, shelf, deck, frames);
    end.expect(rt, "a run that is not broken off");
    (shelf, transcript)
}

/// Runs a deck over a library that keeps its records in lists.
pub fn run_over_lists(
    rt: &impl Abort,
    alloc: Global,
    library: &mut ListLibrary,
    deck: &str,
) -> (String, Result<RunEnd, RunFault>) {
    let mut out: Vec<u8> = Vec::with_capacity(alloc, 1000).expect(rt, "memory");
    let end = run_deck(alloc, deck.as_bytes(), library, &mut out);
    (String::from_utf8(out).expect(rt, "a text"), end)
}

/// A shelf with the file as a deck finds it.
pub fn shelf_before(rt: &impl Abort, alloc: Global, worked: &Worked) -> MemShelf {
    let deck = deck_of(rt, alloc, worked.heading, worked.before);
    let (shelf, _) = run_over(rt, alloc, MemShelf::new(alloc), &deck, 64);
    shelf
}

/// A shelf with the same files, of which none is attached.
pub fn copy_of(rt: &impl Abort, alloc: Global, shelf: &MemShelf) -> MemShelf {
    shelf.crash(alloc, Image::AsRead).expect(rt, "memory")
}
