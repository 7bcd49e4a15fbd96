//! A leaf in a page.

ghost use Rattle.std.specs.Prelude.{◌≡◌};
ghost use Rattle.tree_node.specs.Leaf.{IsLeaf};

use super::leaf::Leaf;
use pages::PAGE_SIZE;
use std::alloc::AllocError;
use tree_node::{LeafView, LeafViewMut, NodeShape, write_leaf};

#[derive(Drop)]
pub struct PageLeaf<const ENTRY: usize> {
    page: [u8; PAGE_SIZE],
    shape: NodeShape,
    ghost leaf: { IsLeaf shape page },
    ghost size: { shape.entry ≡ ENTRY },
}

impl<const ENTRY: usize> PageLeaf<ENTRY> {
    pub fn new(shape: NodeShape) -> Self
        requires { shape.entry ≡ ENTRY }
    {
        let mut page = [0; PAGE_SIZE];
        write_leaf(&mut page, shape);
        PageLeaf { page, shape }
    }
}

impl<const ENTRY: usize> Leaf<ENTRY> for PageLeaf<ENTRY> {
    fn empty(&mut self) {
        write_leaf(&mut self.page, self.shape);
    }

    fn rank(&self, key: &[u8]) -> usize {
        let leaf = LeafView {
            page: &self.page,
            shape: self.shape,
        };
        leaf.rank(key)
    }

    fn insert(&mut self, entry: &[u8; ENTRY]) -> Result<usize, AllocError> {
        let leaf = LeafView {
            page: &self.page,
            shape: self.shape,
        };
        if leaf.is_full() {
            write_leaf(&mut self.page, self.shape);
        }
        let leaf = LeafView {
            page: &self.page,
            shape: self.shape,
        };
        let place = leaf.rank(&entry[..self.shape.width as usize]);
        let mut leaf = LeafViewMut {
            page: &mut self.page,
            shape: self.shape,
        };
        leaf.insert_at(place, entry);
        Ok(place)
    }
}
