//! A unit whose pages are asked for.

ghost use Rattle.std.specs.Prelude.{ℕ, []};
ghost use Rattle.page_store.specs.ShelfState.{ShelfState};
ghost use Rattle.file_checker.specs.Asked.{no_shelf};

use std::marker::Brand;

/// A unit of a shelf, of which so many pages are asked for, and the shelf before they were.
///
/// A caller passes `Brand`, and picks what these are at the call.
pub trait UnitAsked {
    /// What the shelf showed.
    ghost before: { ShelfState };

    /// How many faults it had counted.
    ghost faults: { ℕ };

    /// The unit.
    ghost unit: { ℕ };

    /// How many pages are asked for, those from page 0 on.
    ghost count: { ℕ };
}

impl UnitAsked for Brand {
    ghost before = { no_shelf };

    ghost faults = { 0 };

    ghost unit = { 0 };

    ghost count = { 0 };
}
