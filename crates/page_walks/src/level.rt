//! What is counted of a tree.

/// A level of a tree: its pages, the entries of its leaves or the separators of its inner nodes,
/// and how many of them one of its pages has room for.
#[derive(Clone, Copy, Debug, PartialEq, Eq)]
pub struct Level {
    pub pages: u64,
    pub entries: u64,
    pub room: u64,
}

/// What is counted of a tree: its levels, the root's first, and the pages of its leaves from left to right.
#[derive(Drop)]
pub struct TreeCounts {
    pub levels: Vec<Level>,
    pub leaves: Vec<u32>,
}

impl Level {
    ghost use Rattle.std.specs.Prelude.{◌≡◌, ◌≤◌};
    ghost use Rattle.page_walks.specs.Fill.{fill_of};

    /// How full its pages are: its entries or separators in percent of those for which there is
    /// room, rounded down.
    pub fn fill(self) -> u64
        ensures value { result ≡ fill_of self }
        ensures percent { result ≤ 100 }
    {
        let room = u128::from(self.pages) * u128::from(self.room);
        let fill = u128::from(self.entries) * 100 / room.max(1);
        fill.min(100) as u64
    }
}
