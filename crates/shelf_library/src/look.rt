//! What a look at the first page finds.

ghost use Rattle.std.specs.Prelude.{◌≡◌, ℕ, List, length, IfSome};
ghost use Rattle.page_store.specs.ShelfState.{HasUnit};
ghost use Rattle.open_file.specs.Bounds.{IsHeader};
ghost use Rattle.shelf_library.specs.Named.{look_by};
ghost use Rattle.shelf_library.specs.Shelves.{HasHeader};
ghost use Rattle.shelf_library.specs.FileOpening.{LooksAtUnit};

use io_state::Fault;
use open_file::Header;
use page_store::{PAGE, Shelf};
use pages::PAGE_SIZE;

/// What a look at a file finds: no file; one whose first page is refused, or that is shorter than
/// it counts; or one that can be opened.
#[derive(Drop)]
pub enum HeaderLook {
    NoFile,
    Refused,
    Accepted(Header),
}

/// Looks at the first page of a unit's file. Nothing is written.
///
/// Device.
pub fn look_at<S: Shelf>(shelf: &mut S, unit: usize) -> Result<HeaderLook, Fault>
    requires unit { HasUnit (S.state shelf.old) unit }
    ensures { LooksAtUnit S.state S.fault_count unit shelf.old shelf.new result }
{
    if !shelf.exists(unit)? {
        return Ok(HeaderLook::NoFile);
    }
    let size = shelf.size(unit)?;
    if size < PAGE {
        return Ok(HeaderLook::Refused);
    }
    let mut page = [0; PAGE_SIZE];
    shelf.read_at(unit, 0, &mut page)?;
    Ok(judged(size, Header::read(&page)))
}

/// What is found in a file of so many bytes, by its header.
fn judged(size: u64, header: Option<Header>) -> HeaderLook
    ensures found { (bytes : List ℕ) → size ≡ length bytes → result ≡ look_by bytes header }
    ensures header { IfSome header IsHeader → HasHeader result }
{
    match header {
        Some(header) if size >= PAGE * u64::from(header.pages) => HeaderLook::Accepted(header),
        _ => HeaderLook::Refused,
    }
}
