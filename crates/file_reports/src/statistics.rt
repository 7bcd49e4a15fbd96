//! What is counted of a file.

use page_walks::Level;

/// What is counted of the tree of a key: its pages, its entries, how many of these have one value
/// at most, and its levels, the root's first.
#[derive(Drop)]
pub struct KeyStatistics {
    pub pages: u64,
    pub entries: u64,
    pub longest: u64,
    pub levels: Vec<Level>,
}

/// What is counted of a file: its pages, all of them, those of the heap, those of the trees and
/// those that are free; the slots of the heap; its records, each of which has a slot; and its keys,
/// the prime key first.
#[derive(Drop)]
pub struct FileStatistics {
    pub pages: u64,
    pub heap: u64,
    pub trees: u64,
    pub free: u64,
    pub slots: u64,
    pub records: u64,
    pub keys: Vec<KeyStatistics>,
}
