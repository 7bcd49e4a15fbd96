//! Lends the pages of a file through the cache, and tells how long it takes: of a new file in an
//! empty folder, or of a few pages in memory.

use crate::arguments::number;
use crate::measured_file::{new_file, shelf_over};
use crate::timing::nanoseconds_since;
use io_state::Fault;
use memory_shelf::MemShelf;
use page_alloc::FilePages;
use pages::Pages;
use std::env::Args;
use std::num::NonZeroUsize;
use std::time::Instant;

// Takes so many pages, and writes the number of each into it.
fn fill<P: Pages>(pages: &mut P, count: u32) -> Result<(), Fault>
    requires ready { P.shown.IsReady pages.old }
    requires open { P.shown.CanChange pages.old }
    ensures goes { P.shown.Writes pages.old pages.new }
{
    for _ in 0..count {
        let n = pages.take()?;
        write(pages, n)?;
    }
    Ok(())
}

fn write<P: Pages>(pages: &mut P, n: u32) -> Result<(), Fault>
    requires ready { P.shown.IsReady pages.old }
    requires open { P.shown.CanChange pages.old }
    ensures goes { P.shown.Writes pages.old pages.new }
{
    let page = pages.page_mut(n)?;
    page[100] = page[100].wrapping_add((n % 251) as u8);
    Ok(())
}

fn read<P: Pages>(pages: &mut P, n: u32) -> Result<u64, Fault>
    requires ready { P.shown.IsReady pages.old }
    ensures goes { P.shown.Writes pages.old pages.new }
{
    let page = pages.page(n)?;
    Ok(page[100] as u64)
}

// The pages in a mixed order, from 1 on.
fn order(count: u32, i: u32, round: u32) -> u32 {
    if count == 0 {
        return 1;
    }
    (i.wrapping_mul(7919).wrapping_add(round) % count).wrapping_add(1)
}

// Lends each page once for reading. A sum of what was read.
fn read_all<P: Pages>(pages: &mut P, count: u32, round: u32) -> Result<u64, Fault>
    requires ready { P.shown.IsReady pages.old }
    ensures goes { P.shown.Writes pages.old pages.new }
{
    let mut sum = 0u64;
    for i in 0..count {
        let byte = read(pages, order(count, i, round))?;
        sum = sum.wrapping_mul(31).wrapping_add(byte);
    }
    Ok(sum)
}

// Lends each page once for writing.
fn write_all<P: Pages>(pages: &mut P, count: u32, round: u32) -> Result<(), Fault>
    requires ready { P.shown.IsReady pages.old }
    requires open { P.shown.CanChange pages.old }
    ensures goes { P.shown.Writes pages.old pages.new }
{
    for i in 0..count {
        write(pages, order(count, i, round))?;
    }
    Ok(())
}

// The sum over rounds, and the nanoseconds of the fastest one.
fn read_rounds<P: Pages>(
    rt: &HostRuntime,
    pages: &mut P,
    count: u32,
    rounds: u32,
) -> anyhow::Result<(u64, u128)>
    requires ready { P.shown.IsReady pages.old }
    ensures goes { P.shown.Writes pages.old pages.new }
{
    let mut sum = 0u64;
    let mut fastest = u128::MAX;
    for round in 0..rounds {
        let start = Instant::now(rt)?;
        sum = sum.wrapping_add(read_all(pages, count, round)?);
        fastest = fastest.min(nanoseconds_since(rt, start)?);
    }
    Ok((sum, fastest))
}

// The nanoseconds of the fastest round.
fn write_rounds<P: Pages>(
    rt: &HostRuntime,
    pages: &mut P,
    count: u32,
    rounds: u32,
) -> anyhow::Result<u128>
    requires ready { P.shown.IsReady pages.old }
    requires open { P.shown.CanChange pages.old }
    ensures goes { P.shown.Writes pages.old pages.new }
{
    let mut fastest = u128::MAX;
    for round in 0..rounds {
        let start = Instant::now(rt)?;
        write_all(pages, count, round)?;
        fastest = fastest.min(nanoseconds_since(rt, start)?);
    }
    Ok(fastest)
}

// Writes sixteen pages that were filled, and reads them. The sum of what was read.
fn change_sixteen<P: Pages>(pages: &mut P) -> Result<u64, Fault>
    requires ready { P.shown.IsReady pages.old }
    requires open { P.shown.CanChange pages.old }
{
    write_all(pages, 16, 1)?;
    read_all(pages, 16, 2)
}

fn in_memory(rt: &HostRuntime) -> anyhow::Result<()> {
    let mut shelf = MemShelf::new(rt.alloc());
    let mut file = new_file(rt, &mut shelf, NonZeroUsize::MIN)?;
    let mut pages = FilePages {
        file: &mut file,
        shelf: &mut shelf,
    };
    fill(&mut pages, 16)?;
    let sum = change_sixteen(&mut pages)?;
    println!(rt; "pages {} sum {sum}", file.pager().count())?;
    Ok(())
}

// The sum over rounds of pages that were filled, and the nanoseconds of the fastest one that read,
// and of the fastest that wrote.
fn work_in_rounds<P: Pages>(
    rt: &HostRuntime,
    pages: &mut P,
    count: u32,
    rounds: u32,
) -> anyhow::Result<(u64, u128, u128)>
    requires ready { P.shown.IsReady pages.old }
    requires open { P.shown.CanChange pages.old }
{
    // The first round writes what was changed.
    read_all(pages, count, 0)?;
    let (sum, read_time) = read_rounds(rt, pages, count, rounds)?;
    let write_time = write_rounds(rt, pages, count, rounds)?;
    Ok((sum, read_time, write_time))
}

/// Works in the folder that a word names, or in memory where there is none.
pub fn run(rt: &HostRuntime, words: &mut Args) -> anyhow::Result<()> {
    let Some(folder) = words.next() else {
        return in_memory(rt);
    };
    let count = number(words, "PAGES")?;
    let frames = number(words, "FRAMES")?;
    let rounds = number(words, "ROUNDS")?;
    let mut shelf = shelf_over(rt, folder);
    let mut file = new_file(rt, &mut shelf, frames)?;
    let mut pages = FilePages {
        file: &mut file,
        shelf: &mut shelf,
    };
    fill(&mut pages, count)?;
    let (sum, read_time, write_time) = work_in_rounds(rt, &mut pages, count, rounds)?;
    println!(rt; "sum {sum} read {read_time} write {write_time}")?;
    Ok(())
}
