//! Where an entry stands.

ghost use Rattle.std.specs.Prelude.{◌≡◌, ◌↔◌, IsSome, IfSome};

use pages::PAGE_SIZE;
use tree_node::{LeafView, NodeShape, is_leaf};

/// A place in a leaf of a tree: the leaf's page, and how many entries stand before it.
#[derive(Clone, Copy, Debug, PartialEq, Eq)]
pub struct LeafSpot {
    pub page: u32,
    pub place: u16,
}

impl LeafSpot {
    ghost use Rattle.page_walks.specs.Spots.{IsSpotThere, entry_at_spot};

    /// The entry that stands there, in the pages of a file as they were read.
    pub fn entry<'a>(self, pages: &'a [[u8; PAGE_SIZE]], shape: NodeShape) -> Option<&'a [u8]>
        ensures there { IsSome result ↔ IsSpotThere shape pages.now self }
        ensures value { IfSome result (λ entry. entry.now ≡ entry_at_spot shape pages.now self) }
    {
        let page = pages.get(self.page as usize)?;
        if !is_leaf(page, shape) {
            return None;
        }
        let leaf = LeafView { page, shape };
        let place = self.place as usize;
        if place >= leaf.count() {
            return None;
        }
        Some(leaf.entry(place))
    }
}
