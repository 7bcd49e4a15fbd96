//! Reads and writes the pages of a file in mixed order through `Store`, and tells how long it
//! takes: of a new file in an empty folder, or of a few pages in memory.

ghost use Rattle.std.specs.Prelude.{◌≡◌, IsTrue, IfOk};
ghost use Rattle.page_store.specs.ShelfState.{HasUnit, unit_file};
ghost use Rattle.page_store.specs.Pages.{HoldsPages};

use crate::arguments::number;
use crate::measured_file::{file_name, shelf_over};
use crate::timing::nanoseconds_since;
use io_state::Fault;
use memory_shelf::MemShelf;
use page_store::{Shelf, Store};
use std::env::Args;
use std::time::Instant;

// Makes the file, with each page full of a byte of its number.
fn fill<S: Shelf>(shelf: &mut S, pages: u32) -> Result<Store, Fault>
    requires unit { HasUnit (S.state shelf.old) 0 }
    ensures unit { HasUnit (S.state shelf.new) 0 }
    ensures named { IfOk result (λ store. store.unit ≡ 0) }
    ensures pages { IfOk result
        (λ store. IsTrue (S.state shelf.new).is_honest
        → HoldsPages store.pages (unit_file (S.state shelf.new) 0)) }
{
    let mut store = Store::make(shelf, 0)?;
    for n in 0..pages {
        if n > store.pages || n == u32::MAX {
            return Ok(store);
        }
        store.write_page(shelf, n, &[(n % 251) as u8; 4096])?;
    }
    Ok(store)
}

// Reads each page once and writes each page once, in two mixed orders. A sum of what was read.
fn mix<S: Shelf>(shelf: &mut S, store: &mut Store, round: u32, start: u64) -> Result<u64, Fault>
    requires unit { HasUnit (S.state shelf.old) 0 }
    requires named { store.old.unit ≡ 0 }
    requires pages { IsTrue (S.state shelf.old).is_honest
        → HoldsPages store.old.pages (unit_file (S.state shelf.old) 0) }
    ensures unit { HasUnit (S.state shelf.new) 0 }
    ensures named { store.new.unit ≡ 0 }
    ensures pages { IsTrue (S.state shelf.new).is_honest
        → HoldsPages store.new.pages (unit_file (S.state shelf.new) 0) }
{
    let mut sum = start;
    let mut page = [0; 4096];
    for i in 0..store.pages {
        let (from, to) = order(store.pages, i, round);
        if from >= store.pages || to >= store.pages {
            return Ok(sum);
        }
        store.read_page(shelf, from, &mut page)?;
        sum = sum.wrapping_mul(31).wrapping_add(page[100] as u64);
        page[100] = page[100].wrapping_add(1);
        store.write_page(shelf, to, &page)?;
    }
    Ok(sum)
}

// The page to read and the page to write.
fn order(pages: u32, i: u32, round: u32) -> (u32, u32) {
    if pages == 0 {
        return (0, 0);
    }
    let from = i.wrapping_mul(7919).wrapping_add(round) % pages;
    let to = i.wrapping_mul(6271).wrapping_add(round) % pages;
    (from, to)
}

fn mix_rounds<S: Shelf>(shelf: &mut S, store: &mut Store, rounds: u32) -> Result<u64, Fault>
    requires unit { HasUnit (S.state shelf.old) 0 }
    requires named { store.old.unit ≡ 0 }
    requires pages { IsTrue (S.state shelf.old).is_honest
        → HoldsPages store.old.pages (unit_file (S.state shelf.old) 0) }
    ensures unit { HasUnit (S.state shelf.new) 0 }
    ensures named { store.new.unit ≡ 0 }
    ensures pages { IsTrue (S.state shelf.new).is_honest
        → HoldsPages store.new.pages (unit_file (S.state shelf.new) 0) }
{
    let mut sum = 0;
    for round in 0..rounds {
        sum = mix(shelf, store, round, sum)?;
    }
    Ok(sum)
}

// Makes a file of so many pages, and reads and writes them in so many rounds. Prints the sum, and
// the time that the rounds took where they are `timed`.
fn work<S: Shelf>(
    rt: &HostRuntime,
    shelf: &mut S,
    pages: u32,
    rounds: u32,
    timed: bool,
) -> anyhow::Result<()> {
    shelf.attach(&[file_name()])?;
    let mut store = fill(shelf, pages)?;
    let start = Instant::now(rt)?;
    let sum = mix_rounds(shelf, &mut store, rounds)?;
    let time = nanoseconds_since(rt, start)?;
    print!(rt; "pages {} sum {sum}", store.pages)?;
    if timed {
        print!(rt; " nanoseconds {time}")?;
    }
    println!(rt)?;
    Ok(())
}

/// Works in the folder that a word names, or in memory where there is none.
pub fn run(rt: &HostRuntime, words: &mut Args) -> anyhow::Result<()> {
    let Some(folder) = words.next() else {
        return work(rt, &mut MemShelf::new(rt.alloc()), 16, 2, false);
    };
    let pages = number(words, "PAGES")?;
    let rounds = number(words, "ROUNDS")?;
    work(rt, &mut shelf_over(rt, folder), pages, rounds, true)
}
