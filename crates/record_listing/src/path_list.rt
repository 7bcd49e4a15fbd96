//! The list.
ghost use Rattle.std.specs.Prelude.{◌≡◌, []};
ghost use Rattle.record_listing.specs.ByPath.{ReadsAside, ListsAtPath};

use crate::asked::Asked;
use crate::end::{ListEnd, ListFault};
use crate::shelf_list::list_shelf;
use folder_shelf::{CallRecord, Disk, PathShelf, System};
use record_text::Form;
use std::alloc::Global;
use std::io::Write;

/// Writes the lines of the records that are asked for of the file of a path, in a form, as the file is
/// read. What the system was asked before is set aside, unless memory is wanting.
///
/// `Input`: the file was not read. `Output`: the writer refused a line. A front of the list may have been
/// written then. `Memory`: nothing was written.
pub fn list_at_path<S: System + Drop, D: Disk, W: Write>(
    system: S,
    aside: &mut CallRecord,
    alloc: Global,
    path: &str,
    asked: Asked,
    form: &Form,
    out: &mut W,
) -> (S, Result<ListEnd, ListFault>)
    requires none_aside { aside.old.calls ≡ [] }
    ensures ends { ReadsAside S.state system aside.new.calls result
        (ListsAtPath D.Disk.unseen path.now form.now asked (W.contents out.old) (W.contents out.new)) }
    ensures memory { result.1 ≡ Err ListFault.Memory → W.contents out.new ≡ W.contents out.old }
{
    let Ok(path) = path.to_string(alloc) else {
        return (system, Err(ListFault::Memory));
    };
    let mut system = system;
    system.exchange_record(aside);
    let shelf: PathShelf<S, D> = PathShelf::new(alloc, system, path);
    let (shelf, end) = list_shelf(alloc, shelf, asked, form, out);
    let system = shelf.into_system();
    (system, end)
}
