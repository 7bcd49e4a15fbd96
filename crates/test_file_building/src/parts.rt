//! A file that is opened by its parts.

use crate::checks::assert_equal;
use file_building::FileParts;
use io_state::FileName;
use memory_shelf::MemShelf;
use page_store::Shelf;
use record_layout::{KeyKind, KeyPart, Schema};
use shelf_library::{HeaderLook, ShelfFile, look_at};
use std::alloc::Global;
use std::num::NonZeroUsize;
use std::process::Abort;

// A prime key of 4 bytes.
const KEYS: [KeyPart; 1] = [KeyPart {
    offset: 0,
    length: 4,
    kind: KeyKind::Prime,
}];

// A shelf with a closed file, as unit 0.
fn shelf_with_file(rt: &impl Abort, alloc: Global) -> MemShelf {
    let schema = Schema::from_parts(9, 9, &KEYS).expect(rt, "a schema");
    let name = FileName::from("FILE").expect(rt, "a name");
    let mut shelf = MemShelf::new(alloc);
    shelf.attach(&[name]).expect(rt, "attached");
    let frames = NonZeroUsize::MIN;
    let mut held = ShelfFile::create(alloc, &mut shelf, 0, frames, 100, &schema).expect(
        rt,
        "a new file",
    );
    held.close(&mut shelf).expect(rt, "closed");
    shelf.attach(&[name]).expect(rt, "attached anew");
    shelf
}

// Opens the file of unit 0, which has one page beside its header.
fn opens(rt: &impl Abort, alloc: Global, shelf: &mut MemShelf) {
    let name = FileName::from("FILE").expect(rt, "a name");
    shelf.attach(&[name]).expect(rt, "attached");
    match look_at(shelf, 0).expect(rt, "a look") {
        HeaderLook::Accepted(header) => {
            let parts = FileParts::open(alloc, 0, NonZeroUsize::MIN, 100, &header).expect(
                rt,
                "an open file",
            );
            assert_equal(rt, parts.file.prime().count(), 0);
            assert_equal(rt, parts.pages.pager().count(), 2);
        }
        _ => panic!(rt; "the file is refused"),
    }
}

#[test]
fn a_file_is_opened_by_its_parts(rt: HostRuntime) {
    let mut shelf = shelf_with_file(&rt, rt.alloc());
    opens(&rt, rt.alloc(), &mut shelf);
}
