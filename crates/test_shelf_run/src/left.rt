//! The file that a run leaves.

ghost use Rattle.page_store.specs.ShelfState.{HasUnit};

use crate::answers::Fault;
use crate::decks::{deck_of, transcript_of};
use crate::judged::{Judged, judge};
use crate::running::{copy_of, run_over};
use io_state::FileName;
use memory_shelf::{Image, MemShelf};
use page_store::Shelf;
use std::alloc::Global;
use std::process::Abort;
use worked_decks::{Step, Worked};

/// What a crash leaves.
#[derive(Clone, Copy)]
pub enum Crash {
    /// Every file as in this image.
    Whole(Image),
    /// Every file as the last successful sync left it, but this page of one file, which is as reads give it.
    OnePage(u64),
}

/// A page of the file of the first unit, if it is there whole.
fn page_of<S: Shelf>(rt: &impl Abort, shelf: &mut S, start: u64) -> Option<[u8; 4096]>
    requires { HasUnit (S.state shelf.old) 0 }
{
    if !shelf.exists(0).expect(rt, "memory") {
        return None;
    }
    let size = shelf.size(0).expect(rt, "memory");
    if size < start || size - start < 4096 {
        return None;
    }
    let mut bytes = [0; 4096];
    shelf.read_at(0, start, &mut bytes).expect(rt, "memory");
    Some(bytes)
}

/// Writes a page of it, where it has as many bytes as stand before that page.
fn put_page<S: Shelf>(rt: &impl Abort, shelf: &mut S, start: u64, bytes: &[u8; 4096])
    requires { HasUnit (S.state shelf.old) 0 }
{
    if !shelf.exists(0).expect(rt, "memory") {
        return;
    }
    let size = shelf.size(0).expect(rt, "memory");
    if size < start {
        return;
    }
    shelf.write_at(0, start, bytes).expect(rt, "memory");
}

/// The shelf of the last successful sync, but this page of the file of a deck, which is as reads give it.
fn with_one_page(
    rt: &impl Abort,
    alloc: Global,
    shelf: &MemShelf,
    worked: &Worked,
    page: u64,
) -> MemShelf {
    let mut from = copy_of(rt, alloc, shelf);
    let mut to = shelf.crash(alloc, Image::Synced).expect(rt, "memory");
    let names = [FileName::from(worked.assigned).expect(rt, "a name")];
    from.attach(&names).expect(rt, "memory");
    to.attach(&names).expect(rt, "memory");
    let start = page.saturating_mul(4096);
    if let Some(bytes) = page_of(rt, &mut from, start) {
        put_page(rt, &mut to, start, &bytes);
    }
    to
}

/// The shelf that a crash leaves; the one file is that of a deck.
fn crashed(
    rt: &impl Abort,
    alloc: Global,
    shelf: &MemShelf,
    worked: &Worked,
    crash: Crash,
) -> MemShelf {
    match crash {
        Crash::Whole(image) => shelf.crash(alloc, image).expect(rt, "memory"),
        Crash::OnePage(page) => with_one_page(rt, alloc, shelf, worked, page),
    }
}

/// Whether the file reads as in these steps.
pub fn reads_as(
    rt: &impl Abort,
    alloc: Global,
    shelf: &MemShelf,
    heading: &str,
    steps: &[Step],
) -> bool {
    let deck = deck_of(rt, alloc, heading, steps);
    let (_, transcript) = run_over(rt, alloc, copy_of(rt, alloc, shelf), &deck, 64);
    transcript == transcript_of(rt, alloc, steps)
}

/// Whether it reads as after a CLOSE that may be the last one.
fn is_closed(
    rt: &impl Abort,
    alloc: Global,
    shelf: &MemShelf,
    worked: &Worked,
    judged: &Judged,
) -> bool {
    for (place, steps) in worked.reads.iter().enumerate() {
        let allowed = place == judged.kept || judged.tried == Some(place);
        if allowed && reads_as(rt, alloc, shelf, worked.heading, steps) {
            return true;
        }
    }
    false
}

/// Whether it reads as it may where a READ by key has failed.
fn is_astray(rt: &impl Abort, alloc: Global, shelf: &MemShelf, worked: &Worked) -> bool {
    for steps in worked.astray {
        if reads_as(rt, alloc, shelf, worked.heading, steps) {
            return true;
        }
    }
    false
}

/// Whether it reads as one that a run of such a transcript may leave.
fn is_left(
    rt: &impl Abort,
    alloc: Global,
    shelf: &MemShelf,
    worked: &Worked,
    judged: &Judged,
) -> bool {
    judged.changed && reads_as(rt, alloc, shelf, worked.heading, worked.refused)
        || is_closed(rt, alloc, shelf, worked, judged)
        || judged.astray && is_astray(rt, alloc, shelf, worked)
}

/// Whether the deck may have this transcript over a device with such a fault, and each of these crashes
/// leaves the file as a run with this transcript may leave it.
pub fn is_allowed(
    rt: &impl Abort,
    alloc: Global,
    worked: &Worked,
    transcript: &str,
    fault: Fault,
    shelf: &MemShelf,
    crashes: &[Crash],
) -> bool {
    let Some(judged) = judge(worked, transcript, fault) else {
        return false;
    };
    for crash in crashes {
        let left = crashed(rt, alloc, shelf, worked, *crash);
        if !is_left(rt, alloc, &left, worked, &judged) {
            return false;
        }
    }
    true
}
