//! Libraries over a shelf, with the names of two files, and the bytes of the first.

ghost use Rattle.std.specs.Prelude.{◌≡◌, ◌≤◌, length, OnOk, IfOk, map, bytes_eq};
ghost use Rattle.std.specs.List.{IsDistinct};
ghost use Rattle.unit_calls.specs.Units.{AreShut};

use indexed_file::Library;
use io_state::{Fault, FileName};
use page_store::Shelf;
use shelf_library::ShelfLibrary;
use std::alloc::Global;
use std::num::NonZeroUsize;

/// The names of two files.
pub fn two_names() -> [FileName; 2]
    ensures distinct { IsDistinct bytes_eq (map (λ name. name.bytes) result) }
    ensures two { length result ≡ 2 }
{
    let mut first = FileName::new();
    first.push_str("CUST");
    let mut second = FileName::new();
    second.push_str("ORDERS");
    [first, second]
}

/// Attaches them.
pub fn attaches<L: Library>(library: &mut L) -> Result<(), Fault>
    ensures { OnOk result (AreShut (L.shown.world library.new) 2) }
{
    library.attach(&two_names())
}

/// A new library over a shelf, whose units are forgotten, with the two names.
pub fn library_over<S: Shelf + Drop>(
    alloc: Global,
    shelf: S,
    limit: u32,
    frames: usize,
) -> Result<ShelfLibrary<S>, Fault>
    requires limit { 16 ≤ limit }
    ensures shut { IfOk result (λ library. AreShut (⟦<ShelfLibrary<S> as Library>⟧.shown.world library) 2) }
{
    let mut shelf = shelf;
    shelf.attach(&[])?;
    let frames = NonZeroUsize::new(frames).unwrap_or(NonZeroUsize::MIN);
    let mut library = ShelfLibrary::new(alloc, shelf, limit, frames);
    attaches(&mut library)?;
    Ok(library)
}

/// Puts a file of these bytes onto a shelf without files, as the first of the two.
pub fn puts<S: Shelf>(shelf: &mut S, bytes: &[u8]) -> Result<(), Fault> {
    shelf.attach(&two_names())?;
    if !shelf.exists(0)? {
        shelf.create(0)?;
        shelf.write_at(0, 0, bytes)?;
        shelf.sync(0)?;
    }
    Ok(())
}

/// The bytes of the first of the two files of a shelf; none where it is not there.
pub fn bytes_of<S: Shelf>(alloc: Global, shelf: &mut S) -> Result<Vec<u8>, Fault> {
    shelf.attach(&two_names())?;
    if !shelf.exists(0)? {
        return Ok(Vec::new(alloc));
    }
    let size = shelf.size(0)?;
    let mut bytes = vec![in alloc; 0; size as usize].map_err(|_| Fault::Memory)?;
    shelf.read_at(0, 0, &mut bytes)?;
    Ok(bytes)
}
