//! Measures each call of the library of files in pages.
//!
//! A file is made in an empty folder, or in memory where FOLDER is `-`, and for each kind of call
//! it is printed how many were made, the nanoseconds, the pages asked for and how often the shelf
//! read and wrote. With no words a small file is made in memory, and what does not change is
//! printed.

ghost use Rattle.std.specs.Prelude.{OnOk};
ghost use Rattle.indexed_file.specs.Clients.{IsOpenWith, IsNotOpen};

mod calls;
mod records;
mod work;

use crate::arguments::number;
use crate::measured_file::{file_name, shelf_over};
use crate::timing::nanoseconds_since;
use anyhow::Context;
use calls::Tally;
use indexed_file::{Library, Seen};
use io_state::Fault;
use memory_shelf::{FuseShelf, Kind, MemShelf};
use page_store::Shelf;
use record_layout::Schema;
use records::{Records, schema};
use shelf_library::ShelfLibrary;
use std::env::Args;
use std::num::NonZeroUsize;
use std::time::Instant;
use work::{ALL, Work, perform};

/// What is measured, and with how many pages in memory.
#[derive(Clone, Copy)]
struct Plan {
    records: Records,
    frames: NonZeroUsize,
}

/// What one kind of call took.
#[derive(Clone, Copy)]
struct Cost {
    tally: Tally,
    nanoseconds: u128,
    reads: u64,
    writes: u64,
}

/// Attaches the file's name.
fn attach<L: Library>(library: &mut L) -> Result<(), Fault>
    ensures { OnOk result (IsNotOpen (L.shown.world library.new) 0) }
{
    library.attach(&[file_name()])
}

/// Opens the file, which is made for the first calls.
fn open<L: Library>(library: &mut L, schema: &Schema, work: Work) -> Result<(), Fault>
    requires { IsNotOpen (L.shown.world library.old) 0 }
    ensures { OnOk result (IsOpenWith (L.shown.world library.new) 0 schema.now) }
{
    if matches!(work, Work::Add) {
        return library.create(0, schema);
    }
    match library.look(0)? {
        Seen::Sound(seen) if seen.same(schema) => library.open(0),
        _ => Err(Fault::Damage),
    }
}

/// Makes the calls of one kind, and shuts the file. The shelf is given back.
fn measure<S: Shelf + Drop>(
    rt: &HostRuntime,
    shelf: FuseShelf<S>,
    plan: &Plan,
    work: Work,
) -> anyhow::Result<(FuseShelf<S>, Cost)> {
    let mut shelf = shelf;
    shelf.attach(&[])?;
    let (reads, writes) = (shelf.calls(Kind::Reads), shelf.calls(Kind::Writes));
    let schema = schema().context("schema")?;
    let mut library = ShelfLibrary::new(rt.alloc(), shelf, u32::MAX, plan.frames);
    attach(&mut library)?;
    open(&mut library, &schema, work)?;
    let start = Instant::now(rt)?;
    let tally = perform(&mut library, &schema, &plan.records, work)?;
    let nanoseconds = nanoseconds_since(rt, start)?;
    library.shut(0)?;
    let shelf = library.into_shelf();
    let cost = Cost {
        tally,
        nanoseconds,
        reads: shelf.calls(Kind::Reads).wrapping_sub(reads),
        writes: shelf.calls(Kind::Writes).wrapping_sub(writes),
    };
    Ok((shelf, cost))
}

/// Prints what calls of one kind asked for, and where they are `timed`, all that they took.
fn print_cost(rt: &HostRuntime, what: &str, cost: &Cost, timed: bool) -> anyhow::Result<()> {
    let Tally { calls, asked, most } = cost.tally;
    if !timed {
        println!(rt; "{what}: {asked} pages asked, {most} at most")?;
        return Ok(());
    }
    println!(rt;
        "{what}: {calls} calls, {} ns each, {asked} pages asked, {most} at most, {} reads, {} writes",
        cost.nanoseconds / u128::from(calls.max(1)),
        cost.reads,
        cost.writes
    )?;
    Ok(())
}

/// Makes the calls of every kind on a new file, and prints what they asked for, and where they are
/// `timed`, all that they took.
fn measure_all<S: Shelf + Drop>(
    rt: &HostRuntime,
    shelf: S,
    plan: &Plan,
    timed: bool,
) -> anyhow::Result<()> {
    let mut shelf = FuseShelf::new(shelf, Kind::Changes, 0, false, false);
    for &(work, what) in &ALL {
        let (back, cost) = measure(rt, shelf, plan, work)?;
        shelf = back;
        print_cost(rt, what, &cost, timed)?;
    }
    Ok(())
}

/// A small file.
const SMALL: Plan = Plan {
    records: Records {
        count: 300,
        groups: 15,
    },
    frames: NonZeroUsize::MIN,
};

/// Works in the folder that a word names, in memory where that is `-`, and on a small file where
/// there is none.
pub fn run(rt: &HostRuntime, words: &mut Args) -> anyhow::Result<()> {
    let Some(folder) = words.next() else {
        return measure_all(rt, MemShelf::new(rt.alloc()), &SMALL, false);
    };
    let plan = Plan {
        records: Records {
            count: number(words, "RECORDS")?,
            groups: number(words, "GROUPS")?,
        },
        frames: number(words, "FRAMES")?,
    };
    if folder.as_str() == "-" {
        return measure_all(rt, MemShelf::new(rt.alloc()), &plan, true);
    }
    measure_all(rt, shelf_over(rt, folder), &plan, true)
}
