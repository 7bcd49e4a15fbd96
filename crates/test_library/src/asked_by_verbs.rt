//! The pages that verbs ask for, over a file of two thousand records with keys of 120 bytes.

ghost use Rattle.test_library.specs.Ready.{IsReadyConnector};

use crate::checks::{assert_equal, assert_equal_for};
use crate::performing::{begins, performs};
use indexed_file::Library;
use io_state::{Access, FileStatement, OpenMode, Status};
use memory_shelf::{FuseShelf, Kind, MemShelf};
use page_store::Shelf;
use shelf_library::ShelfLibrary;
use std::alloc::Global;
use std::process::Abort;
use unit_calls::programs::{Step, changed, in_sequence, read_by_key, written};
use verbs::Connector;

/// Performs a step, and answers the pages that its statements asked for.
fn takes<S: Shelf + Drop>(
    rt: &impl Abort,
    connector: &mut Connector,
    library: &mut ShelfLibrary<S>,
    step: Step,
) -> u64
    requires { IsReadyConnector connector.old (⟦<ShelfLibrary<S> as Library>⟧.shown.world library.old) }
    ensures { IsReadyConnector connector.new (⟦<ShelfLibrary<S> as Library>⟧.shown.world library.new) }
{
    let mut pages = 0u64;
    for i in 0..step.count {
        let mut area = step.area(i);
        let (status, asked) = performs(
            rt,
            connector,
            library,
            &step.statement,
            step.reference,
            &mut area,
        );
        let is_one = step.statuses.contains(&status);
        assert_equal_for(rt, (step.statement, i, status), is_one, true);
        pages = pages.saturating_add(asked);
    }
    pages
}

/// Runs a program, and answers the pages that its statements asked for, and three for each OPEN.
fn runs<S: Shelf + Drop>(
    rt: &impl Abort,
    connector: &mut Connector,
    library: &mut ShelfLibrary<S>,
    program: &[Step],
) -> u64
    requires { IsReadyConnector connector.old (⟦<ShelfLibrary<S> as Library>⟧.shown.world library.old) }
    ensures { IsReadyConnector connector.new (⟦<ShelfLibrary<S> as Library>⟧.shown.world library.new) }
{
    let mut pages = 0u64;
    for step in program {
        if matches!(step.statement, FileStatement::Open(_)) {
            pages = pages.saturating_add(3);
        }
        pages = pages.saturating_add(takes(rt, connector, library, *step));
    }
    pages
}

/// Runs the programs of dynamic access, and answers the shelf and the pages.
fn runs_dynamic<S: Shelf + Drop>(
    rt: &impl Abort,
    alloc: Global,
    shelf: S,
    frames: usize,
) -> (S, u64) {
    let (mut connector, mut library) = begins(rt, alloc, shelf, frames, Access::Dynamic);
    let mut pages = runs(rt, &mut connector, &mut library, &written());
    let more = runs(rt, &mut connector, &mut library, &read_by_key());
    pages = pages.saturating_add(more);
    let more = runs(rt, &mut connector, &mut library, &changed());
    (library.into_shelf(), pages.saturating_add(more))
}

/// Runs that of sequential access over the file that they left.
fn runs_sequential<S: Shelf + Drop>(
    rt: &impl Abort,
    alloc: Global,
    shelf: S,
    frames: usize,
) -> (S, u64) {
    let (mut connector, mut library) = begins(rt, alloc, shelf, frames, Access::Sequential);
    let pages = runs(rt, &mut connector, &mut library, &in_sequence());
    (library.into_shelf(), pages)
}

/// Runs programs over a new file with so many frames: its shelf reads no more pages than are asked for, and
/// three for each OPEN. It answers the shelf.
fn reads_no_more(rt: &impl Abort, alloc: Global, frames: usize) -> FuseShelf<MemShelf> {
    let fuse = FuseShelf::new(MemShelf::new(alloc), Kind::Reads, 0, false, false);
    let (shelf, pages) = runs_dynamic(rt, alloc, fuse, frames);
    let (shelf, more) = runs_sequential(rt, alloc, shelf, frames);
    let pages = pages.saturating_add(more);
    let reads = shelf.calls(Kind::Reads);
    assert_equal_for(rt, (reads, pages), reads <= pages, true);
    shelf
}

/// OPEN INPUT and one READ by the prime key; a WRITE is refused then, and asks for no page. It answers the
/// pages that the READ asked for.
fn opens_and_reads<S: Shelf + Drop>(
    rt: &impl Abort,
    connector: &mut Connector,
    library: &mut ShelfLibrary<S>,
) -> u64
    requires { IsReadyConnector connector.old (⟦<ShelfLibrary<S> as Library>⟧.shown.world library.old) }
{
    let mut area = [0; 240];
    area[116..120].copy_from_slice(&10_199u32.to_be_bytes());
    let open = FileStatement::Open(OpenMode::Input);
    let (opened, _) = performs(rt, connector, library, &open, 0, &mut area);
    assert_equal(rt, opened, Status::Successful);
    let read = FileStatement::Read { key: 0 };
    let (found, to_read) = performs(rt, connector, library, &read, 0, &mut area);
    assert_equal(rt, found, Status::Successful);
    let write = FileStatement::Write;
    let (refused, asked) = performs(rt, connector, library, &write, 0, &mut area);
    assert_equal(rt, refused, Status::NotOpenForWriting);
    assert_equal(rt, asked, 0);
    to_read
}

/// They make few reads, by the height of the key's tree: the READ asks for a page of each level, and for the
/// record's.
fn reads_one(rt: &impl Abort, alloc: Global, shelf: FuseShelf<MemShelf>, frames: usize) {
    let before = shelf.calls(Kind::Reads);
    let (mut connector, mut library) = begins(rt, alloc, shelf, frames, Access::Random);
    let to_read = opens_and_reads(rt, &mut connector, &mut library);
    let height = u64::from(library.height(0, 0));
    assert_equal(rt, height, 3);
    assert_equal(rt, to_read, height + 1);
    let reads = library
        .into_shelf()
        .calls(Kind::Reads)
        .saturating_sub(before);
    assert_equal_for(rt, (reads, height), reads <= 5 * height + 4, true);
}

// Each page that is asked for, and is not the one before, is read off the shelf.
#[test]
fn verbs_ask_for_few_pages_with_one_frame(rt: HostRuntime) {
    let shelf = reads_no_more(&rt, rt.alloc(), 1);
    reads_one(&rt, rt.alloc(), shelf, 1);
}

#[test]
fn verbs_ask_for_few_pages_with_64_frames(rt: HostRuntime) {
    let shelf = reads_no_more(&rt, rt.alloc(), 64);
    reads_one(&rt, rt.alloc(), shelf, 64);
}
