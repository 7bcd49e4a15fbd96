//! Calls on a tree whose pages are all in memory, and how long they take: of a new file in an empty
//! folder, or of a few pages in memory.

ghost use Rattle.std.specs.Prelude.{◌≡◌};
ghost use Rattle.bplus_tree.specs.Fields.{tree_shape};

mod calls;
mod entries;

use crate::arguments::number;
use crate::measured_file::{new_file, shelf_over};
use crate::timing::nanoseconds_since;
use anyhow::Context;
use bplus_tree::Tree;
use calls::{find_all, insert_all, remove_all, step_over};
use entries::{Bytes, CALLING, FILLING, SHAPE, mixed};
use memory_shelf::MemShelf;
use page_alloc::FilePages;
use page_store::Shelf;
use pages::Pages;
use std::env::Args;
use std::num::NonZeroUsize;
use std::time::Instant;

// The sum of all answers, and the nanoseconds that each kind of call took where it was fastest.
#[derive(Clone, Copy)]
struct Figures {
    sum: u64,
    find: u128,
    step: u128,
    remove: u128,
    insert: u128,
}

impl Figures {
    fn none() -> Figures {
        Figures {
            sum: 0,
            find: u128::MAX,
            step: u128::MAX,
            remove: u128::MAX,
            insert: u128::MAX,
        }
    }

    // With those of one round more.
    fn with(self, find: Timed, step: Timed, remove: Timed, insert: Timed) -> Figures {
        let answers = find
            .sum
            .wrapping_add(step.sum)
            .wrapping_add(remove.sum)
            .wrapping_add(insert.sum);
        Figures {
            sum: self.sum.wrapping_add(answers),
            find: self.find.min(find.time),
            step: self.step.min(step.time),
            remove: self.remove.min(remove.time),
            insert: self.insert.min(insert.time),
        }
    }

    // Prints the sum behind that of the entries, and what a call of each kind took where they are `timed`.
    fn print(&self, rt: &HostRuntime, count: u64, fill: Timed, timed: bool) -> anyhow::Result<()> {
        let inserted = fill.sum;
        print!(rt; "entries {count} inserted {inserted} sum {}", self.sum)?;
        if timed {
            print!(rt;
                " fill {} find {} step {} remove {} insert {}",
                fill.time, self.find, self.step, self.remove, self.insert
            )?;
        }
        println!(rt)?;
        Ok(())
    }
}

// What calls of one kind answered, and the nanoseconds that they took.
#[derive(Clone, Copy)]
struct Timed {
    sum: u64,
    time: u128,
}

fn time_find<P: Pages>(
    rt: &HostRuntime,
    tree: &Tree,
    pages: &mut P,
    entries: &[Bytes],
) -> anyhow::Result<Timed>
    requires ready { P.shown.IsReady pages.old }
    ensures goes { P.shown.Writes pages.old pages.new }
{
    let start = Instant::now(rt)?;
    let sum = find_all(tree, pages, entries)?;
    let time = nanoseconds_since(rt, start)?;
    Ok(Timed { sum, time })
}

fn time_step<P: Pages>(rt: &HostRuntime, tree: &Tree, pages: &mut P) -> anyhow::Result<Timed>
    requires ready { P.shown.IsReady pages.old }
    ensures goes { P.shown.Writes pages.old pages.new }
{
    let start = Instant::now(rt)?;
    let sum = step_over(tree, pages)?;
    let time = nanoseconds_since(rt, start)?;
    Ok(Timed { sum, time })
}

fn time_remove<P: Pages>(
    rt: &HostRuntime,
    tree: &mut Tree,
    pages: &mut P,
    entries: &[Bytes],
) -> anyhow::Result<Timed>
    requires shape { (tree_shape tree.old).entry ≡ 24 }
    requires ready { P.shown.IsReady pages.old }
    requires open { P.shown.CanChange pages.old }
    ensures goes { P.shown.Writes pages.old pages.new }
    ensures shape { tree_shape tree.new ≡ tree_shape tree.old }
{
    let start = Instant::now(rt)?;
    let sum = remove_all(tree, pages, entries)?;
    let time = nanoseconds_since(rt, start)?;
    Ok(Timed { sum, time })
}

fn time_insert<P: Pages>(
    rt: &HostRuntime,
    tree: &mut Tree,
    pages: &mut P,
    entries: &[Bytes],
) -> anyhow::Result<Timed>
    requires shape { (tree_shape tree.old).entry ≡ 24 }
    requires ready { P.shown.IsReady pages.old }
    requires open { P.shown.CanChange pages.old }
    ensures goes { P.shown.Writes pages.old pages.new }
    ensures shape { tree_shape tree.new ≡ tree_shape tree.old }
{
    let start = Instant::now(rt)?;
    let sum = insert_all(tree, pages, entries)?;
    let time = nanoseconds_since(rt, start)?;
    Ok(Timed { sum, time })
}

// Looks each entry up, and goes over all.
fn time_reading<P: Pages>(
    rt: &HostRuntime,
    tree: &Tree,
    pages: &mut P,
    entries: &[Bytes],
) -> anyhow::Result<(Timed, Timed)>
    requires ready { P.shown.IsReady pages.old }
    ensures goes { P.shown.Writes pages.old pages.new }
{
    let find = time_find(rt, tree, pages, entries)?;
    let step = time_step(rt, tree, pages)?;
    Ok((find, step))
}

// Takes some entries out, and puts them in again.
fn time_changes<P: Pages>(
    rt: &HostRuntime,
    tree: &mut Tree,
    pages: &mut P,
    some: &[Bytes],
) -> anyhow::Result<(Timed, Timed)>
    requires shape { (tree_shape tree.old).entry ≡ 24 }
    requires ready { P.shown.IsReady pages.old }
    requires open { P.shown.CanChange pages.old }
    ensures goes { P.shown.Writes pages.old pages.new }
    ensures shape { tree_shape tree.new ≡ tree_shape tree.old }
{
    let remove = time_remove(rt, tree, pages, some)?;
    let insert = time_insert(rt, tree, pages, some)?;
    Ok((remove, insert))
}

// Looks each entry up, goes over all, and takes some of them out and puts them in again.
fn round<P: Pages>(
    rt: &HostRuntime,
    tree: &mut Tree,
    pages: &mut P,
    entries: &[Bytes],
    some: &[Bytes],
    before: Figures,
) -> anyhow::Result<Figures>
    requires shape { (tree_shape tree.old).entry ≡ 24 }
    requires ready { P.shown.IsReady pages.old }
    requires open { P.shown.CanChange pages.old }
    ensures goes { P.shown.Writes pages.old pages.new }
    ensures shape { tree_shape tree.new ≡ tree_shape tree.old }
{
    let (find, step) = time_reading(rt, tree, pages, entries)?;
    let (remove, insert) = time_changes(rt, tree, pages, some)?;
    Ok(before.with(find, step, remove, insert))
}

// So many rounds, each with another tenth of the entries that is taken out and put in again.
fn rounds<P: Pages>(
    rt: &HostRuntime,
    tree: &mut Tree,
    pages: &mut P,
    entries: &[Bytes],
    count: usize,
) -> anyhow::Result<Figures>
    requires shape { (tree_shape tree.old).entry ≡ 24 }
    requires ready { P.shown.IsReady pages.old }
    requires open { P.shown.CanChange pages.old }
    ensures goes { P.shown.Writes pages.old pages.new }
    ensures shape { tree_shape tree.new ≡ tree_shape tree.old }
{
    let tenth = (entries.len() / 10).max(1);
    let mut figures = Figures::none();
    for turn in 0..count {
        let from = turn.wrapping_mul(tenth) % entries.len().max(1);
        let to = from.saturating_add(tenth).min(entries.len());
        let some = entries.get(from..to).unwrap_or(&[]);
        figures = round(rt, tree, pages, entries, some, figures)?;
    }
    Ok(figures)
}

// Fills a tree on a new file with so many entries, and makes so many rounds of calls on it. Prints
// what was answered, and what a call of each kind took where they are `timed`.
fn work<S: Shelf>(
    rt: &HostRuntime,
    shelf: &mut S,
    frames: NonZeroUsize,
    count: u64,
    turns: usize,
    timed: bool,
) -> anyhow::Result<()> {
    let mut file = new_file(rt, shelf, frames)?;
    let mut pages = FilePages {
        file: &mut file,
        shelf,
    };
    let mut tree = Tree::empty(&mut pages, SHAPE)?;
    let filling = mixed(rt.alloc(), count, FILLING)?;
    let entries = mixed(rt.alloc(), count, CALLING)?;
    let fill = time_insert(rt, &mut tree, &mut pages, &filling)?;
    let done = rounds(rt, &mut tree, &mut pages, &entries, turns)?;
    done.print(rt, tree.count(), fill, timed)
}

/// Works in the folder that a word names, or in memory where there is none.
pub fn run(rt: &HostRuntime, words: &mut Args) -> anyhow::Result<()> {
    let Some(folder) = words.next() else {
        let mut shelf = MemShelf::new(rt.alloc());
        return work(rt, &mut shelf, NonZeroUsize::MIN, 1000, 2, false);
    };
    let count = number(words, "ENTRIES")?;
    let turns = number(words, "ROUNDS")?;
    let frames = NonZeroUsize::new(4096).context("FRAMES")?;
    let mut shelf = shelf_over(rt, folder);
    work(rt, &mut shelf, frames, count, turns, true)
}
