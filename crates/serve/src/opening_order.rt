//! The order in which the open files were opened.
ghost use Rattle.std.specs.Prelude.{◌≡◌, ◌<◌, ◌≤◌, [], length, slice_get, eqb};
ghost use Rattle.std.specs.List.{list_any};
ghost use Rattle.serve.specs.Files.{order_after, without};

use arrayvec::ArrayVec;
use std::marker::Model;

/// The most files that can be open.
const FILE_LIMIT: usize = 64;

/// The numbers of the open files, the one that was opened first at the front.
#[derive(Drop)]
pub struct OpeningOrder {
    numbers: ArrayVec<u8, FILE_LIMIT>,
}

impl Model for OpeningOrder {
    ghost use Rattle.std.specs.Prelude.{ℕ, List};
    ghost use Rattle.serve.specs.Files.{IsOrder};

    ghost Value = { List ℕ };

    ghost view = { λ order. order.numbers.items };

    ghost invariant = { λ order. IsOrder order.numbers.items };
}

impl OpeningOrder {
    /// No file is open.
    pub fn new() -> Self
        ensures { result ≡ [] }
    {
        OpeningOrder {
            numbers: ArrayVec::new(),
        }
    }

    /// How many files are open.
    pub fn count(&self) -> usize
        ensures count { result ≡ length self.now }
        ensures limit { result ≤ 64 }
    {
        self.numbers.len()
    }

    /// The file that was opened first.
    pub fn first(&self) -> Option<u8>
        ensures { result ≡ slice_get self.now 0 }
    {
        self.numbers.first().copied()
    }

    fn contains(&self, number: u8) -> bool
        ensures { result ≡ list_any (eqb number) self.now }
    {
        self.numbers.iter().any(|other| number == *other)
    }

    fn remove(&mut self, number: u8)
        ensures { self.new ≡ without number self.old }
    {
        self.numbers.retain(|other| number != *other);
    }

    /// Takes note of whether a file is open after a statement on it.
    pub fn note(&mut self, number: u8, is_open: bool)
        requires { number < 64 }
        ensures { self.new ≡ order_after number is_open self.old }
    {
        if !is_open {
            self.remove(number);
        } else if !self.contains(number) {
            self.numbers.push(number);
        }
    }
}
