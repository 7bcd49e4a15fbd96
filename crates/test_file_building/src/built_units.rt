//! New files of a shelf that are built from records.

use crate::checks::{assert_equal, assert_equal_for};
use crate::records::Records;
use file_building::{FileBuilt, build_closed};
use io_state::{Fault, FileName};
use memory_shelf::{FuseShelf, Kind, MemShelf};
use page_store::Shelf;
use record_layout::{KeyKind, KeyPart, Schema};
use shelf_library::{HeaderLook, look_at};
use std::alloc::Global;
use std::num::NonZeroUsize;
use std::process::Abort;

/// A prime key, a key of which several records have one value, and one of which no two have.
const KEYS: [KeyPart; 3] = [
    KeyPart {
        offset: 0,
        length: 4,
        kind: KeyKind::Prime,
    },
    KeyPart {
        offset: 4,
        length: 4,
        kind: KeyKind::Duplicates,
    },
    KeyPart {
        offset: 8,
        length: 4,
        kind: KeyKind::Unique,
    },
];

/// More bytes than any of these files wants.
const ENOUGH: usize = 1_000_000;

/// So many calls change the file of 40 records; the last one syncs the gate, which is closed.
const CHANGES: u64 = 16;

/// The records of so many numbers: the group of each is one of seven, and its last value is its own.
fn numbered(rt: &impl Abort, alloc: Global, count: u32) -> Vec<u8> {
    let mut bytes = Vec::new(alloc);
    for n in 0..count {
        bytes
            .extend_from_slice(&n.to_be_bytes())
            .expect(rt, "memory");
        bytes
            .extend_from_slice(&(n % 7).to_be_bytes())
            .expect(rt, "memory");
        bytes
            .extend_from_slice(&n.wrapping_mul(2_654_435_761).to_be_bytes())
            .expect(rt, "memory");
    }
    bytes
}

/// Builds the file of a name on a shelf from the records of these bytes.
fn builds<S: Shelf>(
    rt: &impl Abort,
    alloc: Global,
    shelf: &mut S,
    bytes: &[u8],
    memory: usize,
) -> Result<FileBuilt, Fault> {
    let schema = Schema::from_parts(12, 12, &KEYS).expect(rt, "a schema");
    assert!(rt; schema.least() == 12);
    assert!(rt; schema.greatest() == 12);
    let name = FileName::from("FILE").expect(rt, "a name");
    shelf.attach(&[name]).expect(rt, "attached");
    let mut records = Records {
        schema: schema.copy(),
        bytes,
        given: 0,
        latest: [0; 12],
    };
    let frames = NonZeroUsize::MIN;
    build_closed(
        alloc,
        shelf,
        0,
        &schema,
        &mut records,
        frames,
        10_000,
        memory,
    )
}

/// What is found of the file.
fn look<S: Shelf>(rt: &impl Abort, shelf: &mut S) -> HeaderLook {
    let name = FileName::from("FILE").expect(rt, "a name");
    shelf.attach(&[name]).expect(rt, "attached");
    look_at(shelf, 0).expect(rt, "a look")
}

#[test]
fn a_file_has_the_records_of_which_it_was_built(rt: HostRuntime) {
    let alloc = rt.alloc();
    for &count in &[0, 1, 2_000] {
        let mut shelf = MemShelf::new(alloc);
        let bytes = numbered(&rt, alloc, count);
        let built = builds(&rt, alloc, &mut shelf, bytes.as_slice(), ENOUGH);
        let records = u64::from(count);
        assert_equal_for(&rt, count, built, Ok(FileBuilt::Closed { records }));
        match look(&rt, &mut shelf) {
            HeaderLook::Accepted(header) => assert_equal_for(&rt, count, header.records, records),
            _ => panic!(&rt; "the file is refused"),
        }
    }
}

/// What becomes of these records; the file is refused.
fn refused(
    rt: &impl Abort,
    alloc: Global,
    bytes: &[u8],
    memory: usize,
) -> Result<FileBuilt, Fault> {
    let mut shelf = MemShelf::new(alloc);
    let built = builds(rt, alloc, &mut shelf, bytes, memory);
    assert_equal(
        rt,
        matches!(look(rt, &mut shelf), HeaderLook::Refused),
        true,
    );
    built
}

#[test]
fn records_that_make_no_file_leave_a_refused_one(rt: HostRuntime) {
    let alloc = rt.alloc();
    let same = b"0001AAAA11110001BBBB2222";
    let twice = b"0001AAAA11110002BBBB22220003CCCC1111";
    let falling = b"0001AAAA11110003BBBB22220002CCCC3333";
    assert_equal(
        &rt,
        refused(&rt, alloc, same, ENOUGH),
        Ok(FileBuilt::OutOfOrder),
    );
    assert_equal(
        &rt,
        refused(&rt, alloc, twice, ENOUGH),
        Ok(FileBuilt::Clash),
    );
    assert_equal(
        &rt,
        refused(&rt, alloc, falling, ENOUGH),
        Ok(FileBuilt::OutOfOrder),
    );
}

#[test]
fn too_little_memory_is_told(rt: HostRuntime) {
    let alloc = rt.alloc();
    let two = b"0001AAAA11110002BBBB2222";
    assert_equal(&rt, refused(&rt, alloc, two, 52), Err(Fault::Memory));
    let mut shelf = MemShelf::new(alloc);
    let built = builds(&rt, alloc, &mut shelf, two, 120);
    assert_equal(&rt, built, Ok(FileBuilt::Closed { records: 2 }));
}

/// Memory for the fronts of two records, and for one entry of a batch.
#[test]
fn records_are_built_above_the_memory_for_them(rt: HostRuntime) {
    let alloc = rt.alloc();
    let bytes = numbered(&rt, alloc, 40);
    let mut shelf = MemShelf::new(alloc);
    let built = builds(&rt, alloc, &mut shelf, bytes.as_slice(), 144);
    assert_equal(&rt, built, Ok(FileBuilt::Closed { records: 40 }));
}

/// The change of this number fails, while a file of 40 records is built: it is told, and what is found
/// is no file, a refused one, or the whole one.
fn fails_at(rt: &impl Abort, alloc: Global, bytes: &[u8], at: u64) {
    let mut shelf = FuseShelf::new(MemShelf::new(alloc), Kind::Changes, at, false, true);
    let built = builds(rt, alloc, &mut shelf, bytes, ENOUGH);
    let told = matches!(
        built,
        Err(Fault::Device)
            | Ok(FileBuilt::Unclosed {
                records: 40,
                fault: Fault::Device
            })
    );
    assert_equal_for(rt, at, told, true);
    let mut shelf = shelf.into_inner();
    match look(rt, &mut shelf) {
        HeaderLook::NoFile => assert_equal(rt, at, 1),
        HeaderLook::Refused => assert_equal_for(rt, at, at < CHANGES, true),
        HeaderLook::Accepted(header) => {
            assert_equal(rt, at, CHANGES);
            assert_equal(rt, header.records, 40);
        }
    }
}

#[test]
fn a_file_of_which_a_change_failed_is_no_other_file(rt: HostRuntime) {
    let alloc = rt.alloc();
    let bytes = numbered(&rt, alloc, 40);
    for at in 1..=CHANGES {
        fails_at(&rt, alloc, bytes.as_slice(), at);
    }
    let mut shelf = FuseShelf::new(
        MemShelf::new(alloc),
        Kind::Changes,
        CHANGES + 1,
        false,
        true,
    );
    let built = builds(&rt, alloc, &mut shelf, bytes.as_slice(), ENOUGH);
    assert_equal(&rt, built, Ok(FileBuilt::Closed { records: 40 }));
}
