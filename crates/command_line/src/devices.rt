//! What the program is over, as its clauses see it.
ghost use Rattle.command_line.specs.Devices.{Devices};

use folder_shelf::{Disk, FolderShelf, System};
use page_store::{GrowingShelf, Shelf};
use std::io::{Read, Write};
use std::marker::PhantomData;

/// What clauses see of a system and of the streams beside it.
pub trait Seen {
    type System;

    type Shelf;

    type Input;

    type Output;

    /// What each of them shows.
    ghost devices: { Devices Self.System Self.Shelf Self.Input Self.Output };
}

/// A system, its disk, an input and an output. No value of this is made: it names the four in a clause.
pub struct Over<S, D, I, W> {
    of: PhantomData<(S, D, I, W)>,
}

impl<S: System + Drop, D: Disk, I: Read, W: Write> Seen for Over<S, D, I, W> {
    type System = S;

    type Shelf = FolderShelf<S, D>;

    type Input = I;

    type Output = W;

    ghost devices = { record {
      state = S.state;
      disk = D.Disk.unseen;
      shelf = ⟦<FolderShelf<S, D> as Shelf>⟧;
      keeps_open = (⟦<FolderShelf<S, D> as GrowingShelf>⟧).keeps_open;
      left = I.remaining;
      contents = W.contents;
    } };
}
