//! The list of the file of a shelf, once a check has found it sound.
ghost use Rattle.std.specs.Prelude.{◌≡◌, ◌∷◌, [], Err};
ghost use Rattle.page_store.specs.DeviceFile.{content};
ghost use Rattle.page_store.specs.ShelfCalls.{HasUnitWith};
ghost use Rattle.record_listing.specs.FileList.{IsFileOfRows, ListsChecked, ListsSound, ToldAsChecked};

use crate::asked::Asked;
use crate::end::{ListEnd, ListFault};
use crate::file_list::FileList;
use crate::shelf_list::list_shelf;
use file_checker::{Verdict, check_unit};
use io_state::{Fault, FileName};
use page_store::Shelf;
use pages::PAGE_SIZE;
use record_text::Form;
use std::alloc::Global;
use std::io::Write;
use std::num::NonZeroUsize;

/// How the list of a file ended that was sound. A device that then tells of another file has lied.
fn told_of(end: Result<ListEnd, ListFault>) -> Result<FileList, ListFault>
    ensures { ToldAsChecked end result }
{
    match end {
        Ok(ListEnd::Listed) => Ok(FileList::Listed),
        Ok(ListEnd::NoKey) => Ok(FileList::NoKey),
        Ok(ListEnd::Absent | ListEnd::Unsound | ListEnd::Damaged) => Err(ListFault::Input),
        Err(fault) => Err(fault),
    }
}

/// Lists the file of unit 0 that is sound, if it begins with this page still.
fn list_sound_unit<S: Shelf, W: Write>(
    alloc: Global,
    shelf: S,
    first: &[u8],
    asked: Asked,
    form: &Form,
    out: &mut W,
) -> (S, Result<FileList, ListFault>)
    requires sound { HasUnitWith (S.state shelf) 0 (λ file. IsFileOfRows (content file)) }
    requires names { (S.state shelf).names ≡ [] ∷ [] }
    ensures ends { ListsSound (S.state shelf) (S.state result.0) first.now form.now asked
        (W.contents out.old) (W.contents out.new) result.1 }
    ensures memory { result.1 ≡ Err ListFault.Memory → W.contents out.new ≡ W.contents out.old }
{
    let mut shelf = shelf;
    let mut page = [0; PAGE_SIZE];
    if shelf.read_at(0, 0, &mut page).is_err() || page.as_slice() != first {
        return (shelf, Err(ListFault::Input));
    }
    if shelf.attach(&[]).is_err() {
        return (shelf, Err(ListFault::Memory));
    }
    let (shelf, end) = list_shelf(alloc, shelf, asked, form, out);
    (shelf, told_of(end))
}

/// Writes the lines of the records that are asked for of the file of the empty name, which began with
/// this page, once a check has found it sound, and gives the shelf back. No call writes. The check
/// keeps pages in `frames` frames at most, of 4,100 bytes each.
///
/// `Input`: the device failed, or the file begins with another page by now. `Output`: the writer refused
/// a line. A front of the list may have been written then. `Memory`: nothing was written.
pub fn list_checked_shelf<S: Shelf, W: Write>(
    alloc: Global,
    shelf: S,
    first: &[u8],
    asked: Asked,
    form: &Form,
    frames: NonZeroUsize,
    out: &mut W,
) -> (S, Result<FileList, ListFault>)
    ensures ends { ListsChecked (S.state shelf) (S.state result.0) first.now form.now asked
        (W.contents out.old) (W.contents out.new) result.1 }
    ensures memory { result.1 ≡ Err ListFault.Memory → W.contents out.new ≡ W.contents out.old }
{
    let mut shelf = shelf;
    if shelf.attach(&[FileName::new()]).is_err() {
        return (shelf, Err(ListFault::Memory));
    }
    let (shelf, found) = check_unit(alloc, shelf, 0, frames);
    match found {
        Ok(Verdict::Sound { .. }) => list_sound_unit(alloc, shelf, first, asked, form, out),
        Ok(Verdict::Unsound(reason, _)) => (shelf, Ok(FileList::Unsound(reason))),
        Err(Fault::Memory) => (shelf, Err(ListFault::Memory)),
        Err(_) => (shelf, Err(ListFault::Input)),
    }
}
