//! Shelves on which the file of the tests is attached.
ghost use Rattle.std.specs.Prelude.{◌≡◌, None};
ghost use Rattle.page_store.specs.ShelfState.{HasUnit, unit_file};
ghost use Rattle.memory_shelf.specs.MemShelves.{mem_state_of};

use io_state::FileName;
use memory_shelf::{FuseShelf, MemShelf};
use page_store::Shelf;
use std::alloc::Global;
use std::process::Abort;

/// The name of a file; none of these texts is too long for one.
pub fn name_of(text: &str) -> FileName {
    match FileName::from(text) {
        Ok(name) => name,
        Err(_) => FileName::new(),
    }
}

pub fn name() -> FileName {
    name_of("CUST")
}

/// Attaches the file.
pub fn attach<S: Shelf>(rt: &impl Abort, shelf: &mut S)
    ensures unit { HasUnit (S.state shelf.new) 0 }
    ensures file { (S.state shelf.new).file ≡ (S.state shelf.old).file }
{
    shelf.attach(&[name()]).expect(rt, "memory");
}

/// A shelf in memory on which no file lies yet.
pub fn new_shelf(rt: &impl Abort, alloc: Global) -> MemShelf
    ensures unit { HasUnit (mem_state_of result) 0 }
    ensures absent { (unit_file (mem_state_of result) 0).seen ≡ None }
{
    let mut shelf = MemShelf::new(alloc);
    attach(rt, &mut shelf);
    shelf
}

/// The shelf below one whose calls fail, with the file attached again.
pub fn below<S: Shelf + Drop>(rt: &impl Abort, shelf: FuseShelf<S>) -> S
    ensures unit { HasUnit (S.state result) 0 }
{
    let mut inner = shelf.into_inner();
    attach(rt, &mut inner);
    inner
}
