//! What is counted of the pages of a file.

ghost use Rattle.std.specs.Prelude.{◌≡◌, ◌<◌, ◌≤◌, ◌^◌, ◌++◌, ◌∷◌, [], IfErr, IfOk, OnOk};
ghost use Rattle.pages.specs.Refused.{RefusesRightly};
ghost use Rattle.pages.specs.Source.{KeepsItsPages, OfItsPages};
ghost use Rattle.bplus_tree.specs.Fields.{tree_shape};
ghost use Rattle.page_walks.specs.Levels.{all_pages};
ghost use Rattle.open_file.specs.Bounds.{IsHeader};
ghost use Rattle.file_reports.specs.Statistics.{HasTreeStanding, HasFileStanding, CountsEachKey, CountsKey};
ghost use Rattle.file_reports.specs.Statistics.{HasFile, CountsFile, all_key_pages};

use crate::statistics::{FileStatistics, KeyStatistics};
use bplus_tree::Tree;
use open_file::{Header, OpenFile};
use page_walks::{Level, TreeCounts, count_tree, level_laws, longest_run, run_laws};
use pages::{PageSource, WalkFault};
use std::alloc::Global;

/// The pages of these levels, as far as 64 bits can count.
fn pages_of(levels: &[Level]) -> u64
    ensures { all_pages levels.now < 2 ^ 64 → result ≡ all_pages levels.now }
{
    let mut pages: u64 = 0;
    for level in levels {
        pages = pages.saturating_add(level.pages);
    }
    pages
}

/// Counts the tree of a key, whose values have so many bytes. Node: it does not stand.
fn count_key<P: PageSource>(
    alloc: Global,
    pages: &mut P,
    tree: &Tree,
    width: u16,
) -> Result<KeyStatistics, WalkFault>
    requires narrow { width ≤ (tree_shape tree.now).width }
    ensures counted { OfItsPages P.has pages.new
        (λ list. HasTreeStanding tree.now list → CountsKey tree.now width list result) }
    ensures refused { OfItsPages P.has pages.new
        (λ list. IfErr result (RefusesRightly (HasTreeStanding tree.now list))) }
    ensures before { KeepsItsPages P.has pages.old pages.new }
{
    level_laws();
    run_laws();
    let shape = tree.shape();
    let TreeCounts { levels, leaves } = count_tree(
        alloc,
        pages,
        shape,
        tree.levels(),
        tree.root(),
    )?;
    let longest = longest_run(alloc, pages, shape, width, &leaves)?;
    Ok(KeyStatistics {
        pages: pages_of(&levels),
        entries: tree.count(),
        longest,
        levels,
    })
}

/// Adds what is counted of a key.
fn push_key(keys: &mut Vec<KeyStatistics>, key: KeyStatistics) -> Result<(), WalkFault>
    ensures added { OnOk result (keys.new.items ≡ keys.old.items ++ key ∷ []) }
    ensures memory { IfErr result (λ fault. fault ≡ WalkFault.Memory) }
{
    keys.push(key).map_err(|_| WalkFault::Memory)
}

/// Counts the trees of all keys, the prime key's first. Node: one of them does not stand.
fn count_keys<P: PageSource>(
    alloc: Global,
    pages: &mut P,
    file: &OpenFile,
) -> Result<Vec<KeyStatistics>, WalkFault>
    ensures counted { OfItsPages P.has pages.new (CountsEachKey file.now result) }
    ensures refused { OfItsPages P.has pages.new
        (λ list. IfErr result (RefusesRightly (HasFileStanding file.now list))) }
    ensures before { KeepsItsPages P.has pages.old pages.new }
{
    let mut keys = Vec::new(alloc);
    let prime = count_key(alloc, pages, &file.prime().tree, file.prime().width)?;
    push_key(&mut keys, prime)?;
    for &index in file.alternates() {
        let key = count_key(alloc, pages, &index.tree, index.width)?;
        push_key(&mut keys, key)?;
    }
    Ok(keys)
}

/// The pages of the trees of these keys, as far as 64 bits can count.
fn tree_pages(keys: &[KeyStatistics]) -> u64
    ensures { all_key_pages keys.now < 2 ^ 64 → result ≡ all_key_pages keys.now }
{
    let mut pages: u64 = 0;
    for key in keys {
        pages = pages.saturating_add(key.pages);
    }
    pages
}

/// Counts the pages of a file, and what is in them, by its header. Node: a tree does not stand.
pub fn count_file<P: PageSource>(
    alloc: Global,
    pages: &mut P,
    header: &Header,
) -> Result<FileStatistics, WalkFault>
    requires header { IsHeader header.now }
    ensures counted { OfItsPages P.has pages.new
        (λ list. HasFile header.now list → CountsFile header.now list result) }
    ensures refused { OfItsPages P.has pages.new
        (λ list. IfErr result (RefusesRightly (HasFile header.now list))) }
    ensures before { KeepsItsPages P.has pages.old pages.new }
{
    let file = OpenFile::from_header(header);
    let keys = count_keys(alloc, pages, &file)?;
    let trees = tree_pages(&keys);
    let others = u64::from(header.pages).saturating_sub(1);
    let heap = others
        .saturating_sub(trees)
        .saturating_sub(u64::from(header.free));
    let room = file.heap().shape().room() as u64;
    Ok(FileStatistics {
        pages: u64::from(header.pages),
        heap,
        trees,
        free: u64::from(header.free),
        slots: heap.saturating_mul(room),
        records: header.records,
        keys,
    })
}
