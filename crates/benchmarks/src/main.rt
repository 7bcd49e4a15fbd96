//! Measures parts of cobix: `benchmarks NAME WORD..`, with the words
//!
//! - `tree_nodes STEPS`
//! - `deck_reading DECK ROUNDS`
//! - `page_files FOLDER PAGES ROUNDS`
//! - `cached_pages FOLDER PAGES FRAMES ROUNDS`
//! - `trees FOLDER ENTRIES ROUNDS`
//! - `library FOLDER RECORDS GROUPS FRAMES`
//!
//! A name alone makes little work, in memory, and prints what does not change; `benchmarks` alone
//! does so for every name.
#![tactic(auto)]

mod arguments;
mod cached_pages;
mod deck_reading;
mod library;
mod measured_file;
mod page_files;
mod timing;
mod tree_nodes;
mod trees;

use std::env;
use std::env::Args;

/// In the order in which they are run.
const NAMES: [&str; 6] = [
    "tree_nodes",
    "deck_reading",
    "page_files",
    "cached_pages",
    "trees",
    "library",
];

/// Runs the benchmark of a name, with the words behind it.
fn run(rt: &HostRuntime, name: &str, words: &mut Args) -> anyhow::Result<()> {
    match name {
        "tree_nodes" => tree_nodes::run(rt, words),
        "deck_reading" => deck_reading::run(rt, words),
        "page_files" => page_files::run(rt, words),
        "cached_pages" => cached_pages::run(rt, words),
        "trees" => trees::run(rt, words),
        "library" => library::run(rt, words),
        _ => anyhow::bail!("no benchmark has the name {name}"),
    }
}

fn main(rt: HostRuntime) -> anyhow::Result<()> {
    let mut words = env::args(&rt)?;
    let _program = words.next();
    if let Some(name) = words.next() {
        return run(&rt, name.as_str(), &mut words);
    }
    for name in NAMES {
        println!(rt; "{name}:")?;
        run(&rt, name, &mut words)?;
    }
    Ok(())
}
