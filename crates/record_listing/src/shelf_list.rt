//! The list of the file of a shelf.
ghost use Rattle.std.specs.Prelude.{◌≡◌, [], IsTrue};
ghost use Rattle.record_listing.specs.FileList.{ListsTruly};

use crate::asked::Asked;
use crate::end::{ListEnd, ListFault};
use crate::listing::list_records;
use io_state::FileName;
use page_store::Shelf;
use record_text::Form;
use shelf_library::ShelfLibrary;
use std::alloc::Global;
use std::io::Write;
use std::num::NonZeroUsize;

/// The most pages of a file: no call makes one.
const PAGES: u32 = 4_294_967_295;

/// How many pages are held at most.
const FRAMES: usize = 1024;

/// Writes the lines of the records that are asked for of the file of the empty name, as they are read
/// page after page, and gives the shelf back. No call writes.
///
/// `Input`: the device failed. `Output`: the writer refused a line. A front of the list may have been
/// written then. `Memory`: nothing was written.
pub fn list_shelf<S: Shelf, W: Write>(
    alloc: Global,
    shelf: S,
    asked: Asked,
    form: &Form,
    out: &mut W,
) -> (S, Result<ListEnd, ListFault>)
    requires names { (S.state shelf).names ≡ [] }
    ensures ends { ListsTruly (S.state shelf) (S.state result.0) form.now asked (W.contents out.old)
        (W.contents out.new) result.1 }
    ensures honest { IsTrue (S.state result.0).is_honest → IsTrue (S.state shelf).is_honest }
    ensures memory { result.1 ≡ Err ListFault.Memory → W.contents out.new ≡ W.contents out.old }
{
    let frames = NonZeroUsize::new(FRAMES).unwrap_or(NonZeroUsize::MIN);
    let mut library = ShelfLibrary::new(alloc, shelf, PAGES, frames);
    let end = list_records(alloc, &mut library, FileName::new(), asked, form, out);
    (library.into_shelf(), end)
}
