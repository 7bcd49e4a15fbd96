//! An open file from its header, and its header.

ghost use Rattle.std.specs.Prelude.{◌≡◌, ◌+◌, length};
ghost use Rattle.open_file.specs.Bounds.{IsHeader};
ghost use Rattle.open_file.specs.Stands.{IsShaped};
ghost use Rattle.open_file.specs.Headers.{IsHeaderOf, Counts, IsOpenedBy, AreStored, AreTrees, is_read_back};

use crate::creating::heap_shape;
use crate::first_page::{Header, TreeNumbers};
use crate::open_file::OpenFile;
use arrayvec::ArrayVec;
use key_index::{AltIndex, PrimeIndex};
use record_heap::{Heap, Place};

impl OpenFile {
    /// The file that a header tells of. Nothing is read.
    pub fn from_header(header: &Header) -> OpenFile
        requires { IsHeader header.now }
        ensures { IsOpenedBy header.now result }
    {
        let schema = header.schema.copy();
        let tree = header.trees[0];
        let free = Place {
            page: header.free_slot_page,
            slot: header.free_slot,
        };
        let heap = Heap::stored(heap_shape(&schema), header.first_heap, free);
        let width = schema.part(0).length;
        OpenFile {
            next_stamp: header.next_stamp,
            prime: PrimeIndex::stored(width, tree.root, tree.height, header.records),
            alternates: stored_alternates(header),
            heap,
            schema,
            path: None,
            broken: false,
        }
    }

    /// Its header. How many pages there are, the header among them, the first free one and how many
    /// are free, is known where pages are given out.
    pub fn header(&self, pages: u32, first_free: u32, free: u32) -> Header
        requires { IsShaped self.now }
        ensures told { IsHeaderOf result self.now }
        ensures counts { Counts result pages first_free free }
    {
        let free_slot = self.heap.first_free();
        Header {
            schema: self.schema.copy(),
            pages,
            first_free,
            free,
            first_heap: self.heap.first_page(),
            free_slot_page: free_slot.page,
            free_slot: free_slot.slot,
            next_stamp: self.next_stamp,
            records: self.prime.tree.count(),
            trees: self.tree_numbers(),
        }
    }

    /// The tree of each key, in the order of the keys.
    fn tree_numbers(&self) -> ArrayVec<TreeNumbers, 9>
        ensures { AreTrees self.now.prime self.now.alternates.items result.items }
    {
        let mut trees = ArrayVec::new();
        trees.push(TreeNumbers {
            height: self.prime.height(),
            root: self.prime.tree.root(),
        });
        for index in self.alternates.as_slice() {
            trees.push(TreeNumbers {
                height: index.height(),
                root: index.tree.root(),
            });
        }
        trees
    }
}

/// The index of each alternate key, in their order.
fn stored_alternates(header: &Header) -> ArrayVec<AltIndex, 8>
    requires { IsHeader header.now }
    ensures each { AreStored header.now result.items }
    ensures many { length header.now.schema.keys ≡ length result.items + 1 }
{
    let keys = header.schema.key_count();
    let prime = header.schema.part(0).length;
    let mut alternates = ArrayVec::new();
    for k in 1..keys {
        let width = header.schema.part(k as u8).length;
        let tree = header.trees[k];
        alternates.push(AltIndex::stored(
            k as u8,
            width,
            prime,
            tree.root,
            tree.height,
            header.records,
        ));
    }
    alternates
}

/// The law of a header: what is opened by the header of a file that stands, stands for the same
/// records. It does nothing.
pub fn header_laws()
    ensures { is_read_back }
{}
