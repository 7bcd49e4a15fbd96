//! What is found of files that are written byte by byte, as the format says: one that stands is sound, and of
//! one that does not its reason is told.

use crate::checks::{assert_equal, assert_equal_for, assert_that};
use crate::slow::Slow;
use crate::written::{one_record, put, put_all, three_keys, varying};
use file_checker::{CheckFault, Reason, Verdict, check_file};
use pages::FaultPlace;
use std::alloc::Global;
use std::fmt::Debug;
use std::process::Abort;
use std::test::Fail;

const SOUND_ONE: Verdict = Verdict::Sound {
    records: 1,
    pages: 3,
};

const SOUND_VARYING: Verdict = Verdict::Sound {
    records: 1,
    pages: 4,
};

const SOUND_THREE: Verdict = Verdict::Sound {
    records: 3,
    pages: 6,
};

/// What is found of the bytes.
fn check(alloc: Global, bytes: &[u8]) -> Result<Verdict, CheckFault> {
    let mut reader = bytes;
    check_file(alloc, &mut reader)
}

/// The bytes are unsound for this reason, which is met there.
fn is_unsound<W: Debug + Drop + Copy>(
    rt: &impl Abort,
    alloc: Global,
    what: W,
    bytes: &[u8],
    reason: Reason,
    place: FaultPlace,
) {
    let checked = check(alloc, bytes);
    assert_equal_for(rt, what, checked, Ok(Verdict::Unsound(reason, place)));
}

#[test]
fn each_file_that_stands_is_sound(rt: HostRuntime) -> Result<(), Fail> {
    let alloc = rt.alloc();
    let one = one_record(&rt, alloc)?;
    assert_equal(&rt, check(alloc, &one), Ok(SOUND_ONE));
    let varying = varying(&rt, alloc)?;
    assert_equal(&rt, check(alloc, &varying), Ok(SOUND_VARYING));
    let three = three_keys(&rt, alloc)?;
    assert_equal(&rt, check(alloc, &three), Ok(SOUND_THREE));
    Ok(())
}

// Bytes behind the pages that are counted are not read.
#[test]
fn a_file_may_be_longer_than_it_counts(rt: HostRuntime) -> Result<(), Fail> {
    let mut bytes = one_record(&rt, rt.alloc())?;
    bytes.push(b'X')?;
    let mut reader = &bytes[..];
    let found = check_file(rt.alloc(), &mut reader);
    assert_equal(&rt, found, Ok(SOUND_ONE));
    assert_equal(&rt, reader, b"X".as_slice());
    Ok(())
}

// One byte each that is changed in the file of one record.
const CHANGED_BYTES: [(usize, u8, Reason, FaultPlace, &str); 17] = [
    (0, b'D', Reason::Gate, FaultPlace::File, "an open gate"),
    (
        9,
        7,
        Reason::Header,
        FaultPlace::File,
        "a version that is not known",
    ),
    (
        15,
        0,
        Reason::Header,
        FaultPlace::File,
        "no page is counted",
    ),
    (
        15,
        2,
        Reason::Header,
        FaultPlace::File,
        "a root past the last page",
    ),
    (
        15,
        4,
        Reason::Short,
        FaultPlace::File,
        "a page too many is counted",
    ),
    (
        12,
        255,
        Reason::Short,
        FaultPlace::File,
        "very many pages are counted",
    ),
    (
        8199,
        2,
        Reason::Shared,
        FaultPlace::Page(2),
        "a heap page that leads to itself",
    ),
    (
        75,
        2,
        Reason::Shared,
        FaultPlace::Page(2),
        "a root in the heap",
    ),
    (
        69,
        2,
        Reason::Node,
        FaultPlace::Page(1),
        "a tree that is higher than it was made",
    ),
    (
        4096,
        b'I',
        Reason::Node,
        FaultPlace::Page(1),
        "another kind of node",
    ),
    (
        4097,
        1,
        Reason::Node,
        FaultPlace::Page(1),
        "a node of another key",
    ),
    (
        8219,
        2,
        Reason::Heap,
        FaultPlace::Entry { page: 2, entry: 1 },
        "a slot without a mark",
    ),
    (
        8192,
        b'L',
        Reason::Heap,
        FaultPlace::Page(2),
        "a heap page of another kind",
    ),
    (
        33,
        2,
        Reason::Heap,
        FaultPlace::Entry { page: 2, entry: 1 },
        "a free slot that nothing leads to",
    ),
    (
        23,
        1,
        Reason::Heap,
        FaultPlace::Page(0),
        "a free page that is none",
    ),
    (
        4112,
        b'1',
        Reason::Index,
        FaultPlace::Entry { page: 1, entry: 0 },
        "a value that is not the record's",
    ),
    (
        55,
        2,
        Reason::Index,
        FaultPlace::Page(1),
        "a record too many is counted",
    ),
];

#[test]
fn a_changed_byte_has_its_reason(rt: HostRuntime) -> Result<(), Fail> {
    let mut bytes = one_record(&rt, rt.alloc())?;
    for &(at, byte, reason, place, what) in &CHANGED_BYTES {
        let was = put(&rt, &mut bytes, at, byte);
        is_unsound(&rt, rt.alloc(), what, &bytes, reason, place);
        put(&rt, &mut bytes, at, was);
    }
    Ok(())
}

/// The file that is cut to this length is short.
fn is_short(rt: &impl Abort, alloc: Global, bytes: &[u8], length: usize) {
    match bytes.get(..length) {
        Some(part) => is_unsound(rt, alloc, length, part, Reason::Short, FaultPlace::File),
        None => assert_that(rt, false),
    }
}

// The gate and all else are looked at only where the bytes are as many as the page count needs, and the page
// count is that of the first page, accepted or not.
#[test]
fn a_file_that_is_cut_is_short(rt: HostRuntime) -> Result<(), Fail> {
    let mut bytes = one_record(&rt, rt.alloc())?;
    for &gate in b"CD\0" {
        put(&rt, &mut bytes, 0, gate);
        for &length in &[0, 1, 4095, 4096, 4097, 8192, 12287] {
            is_short(&rt, rt.alloc(), &bytes, length);
        }
    }
    put(&rt, &mut bytes, 9, 7);
    // The gate comes before the rest of the first page.
    is_unsound(
        &rt,
        rt.alloc(),
        "another version",
        &bytes,
        Reason::Gate,
        FaultPlace::File,
    );
    Ok(())
}

#[test]
fn a_page_that_nothing_reaches_is_lost(rt: HostRuntime) -> Result<(), Fail> {
    let mut bytes = one_record(&rt, rt.alloc())?;
    put(&rt, &mut bytes, 15, 4);
    bytes.extend_from_slice(&[0; 4096])?;
    is_unsound(
        &rt,
        rt.alloc(),
        "page 3",
        &bytes,
        Reason::Lost,
        FaultPlace::Page(3),
    );
    Ok(())
}

// A few bytes from one place on that are changed in the file of three keys.
const CHANGED_PARTS: [(usize, &[u8], Reason, FaultPlace, &str); 18] = [
    (
        4096 + 16,
        b"0002",
        Reason::Order,
        FaultPlace::Entry { page: 1, entry: 0 },
        "a prime value twice",
    ),
    (
        4096 + 25,
        &[3],
        Reason::Index,
        FaultPlace::Entry { page: 1, entry: 0 },
        "an entry that leads to a free slot",
    ),
    (
        4096 + 25,
        &[1],
        Reason::Index,
        FaultPlace::Entry { page: 1, entry: 0 },
        "an entry that leads to another record",
    ),
    (
        4096 + 23,
        &[2],
        Reason::Index,
        FaultPlace::Entry { page: 1, entry: 0 },
        "an entry that leads to a page of no slots",
    ),
    (
        8192 + 16,
        b"AB",
        Reason::Index,
        FaultPlace::Entry { page: 2, entry: 0 },
        "a value that is not the record's",
    ),
    (
        8192 + 25,
        &[1],
        Reason::Index,
        FaultPlace::Entry { page: 2, entry: 0 },
        "a stamp in a unique key",
    ),
    (
        8192 + 26,
        b"0004",
        Reason::Index,
        FaultPlace::Entry { page: 2, entry: 0 },
        "a record that is not there",
    ),
    (
        8192 + 26,
        b"0002",
        Reason::Index,
        FaultPlace::Entry { page: 2, entry: 0 },
        "another record",
    ),
    (
        12288 + 27,
        &[2],
        Reason::Index,
        FaultPlace::Entry { page: 3, entry: 0 },
        "a stamp that is not the slot's",
    ),
    (
        12288 + 27,
        &[3],
        Reason::Order,
        FaultPlace::Entry { page: 3, entry: 0 },
        "a value and stamp twice",
    ),
    (
        16384 + 24,
        &[2],
        Reason::Index,
        FaultPlace::Entry { page: 3, entry: 0 },
        "a stamp in the slot that is not the entry's",
    ),
    (
        16384 + 24,
        &[0],
        Reason::Index,
        FaultPlace::Entry { page: 1, entry: 0 },
        "no stamp in the slot",
    ),
    (
        16384 + 25,
        b"0009",
        Reason::Index,
        FaultPlace::Entry { page: 1, entry: 0 },
        "a record of another prime value",
    ),
    (
        16384 + 29,
        b"ZZ",
        Reason::Index,
        FaultPlace::Entry { page: 2, entry: 0 },
        "a record of another unique value",
    ),
    (
        16384 + 31,
        b"BERN",
        Reason::Index,
        FaultPlace::Entry { page: 3, entry: 0 },
        "a record of another city",
    ),
    (
        47,
        &[3],
        Reason::Index,
        FaultPlace::Entry { page: 1, entry: 1 },
        "a stamp that comes next",
    ),
    (
        55,
        &[2],
        Reason::Index,
        FaultPlace::Page(1),
        "a record too few is counted",
    ),
    (
        91,
        &[1],
        Reason::Shared,
        FaultPlace::Page(1),
        "two keys of one root",
    ),
];

#[test]
fn indexes_and_records_agree_both_ways(rt: HostRuntime) -> Result<(), Fail> {
    for &(at, part, reason, place, what) in &CHANGED_PARTS {
        let mut bytes = three_keys(&rt, rt.alloc())?;
        put_all(&rt, &mut bytes, at, part);
        is_unsound(&rt, rt.alloc(), what, &bytes, reason, place);
    }
    Ok(())
}

// The slot behind the three records is in use, and no entry leads to it.
#[test]
fn a_record_has_its_entry(rt: HostRuntime) -> Result<(), Fail> {
    let mut bytes = three_keys(&rt, rt.alloc())?;
    put(&rt, &mut bytes, 33, 4);
    put(&rt, &mut bytes, 16384 + 16 + 3 * 21, 1);
    let place = FaultPlace::Entry { page: 4, entry: 3 };
    is_unsound(&rt, rt.alloc(), "slot 3", &bytes, Reason::Index, place);
    Ok(())
}

// Two entries of the prime index, of 10 bytes, are exchanged.
#[test]
fn entries_that_are_exchanged_are_out_of_order(rt: HostRuntime) -> Result<(), Fail> {
    let mut bytes = three_keys(&rt, rt.alloc())?;
    for i in 0..10 {
        let left = put(&rt, &mut bytes, 4112 + i, 0);
        let right = put(&rt, &mut bytes, 4122 + i, left);
        put(&rt, &mut bytes, 4112 + i, right);
    }
    let place = FaultPlace::Entry { page: 1, entry: 0 };
    is_unsound(&rt, rt.alloc(), "entry 0", &bytes, Reason::Order, place);
    Ok(())
}

// One byte each that is changed in the file of three keys, of which page 5 is free: in the chain, and reached
// by nothing.
const CHANGED_CHAINS: [(usize, u8, Reason, FaultPlace, &str); 5] = [
    (
        20487,
        4,
        Reason::Heap,
        FaultPlace::Page(5),
        "a free page more than are counted",
    ),
    (
        20480,
        b'L',
        Reason::Heap,
        FaultPlace::Page(5),
        "a free page of another kind",
    ),
    (
        19,
        4,
        Reason::Heap,
        FaultPlace::Page(4),
        "a chain that begins in the heap",
    ),
    (
        27,
        5,
        Reason::Heap,
        FaultPlace::Page(5),
        "a heap that begins with a free page",
    ),
    (
        75,
        5,
        Reason::Shared,
        FaultPlace::Page(5),
        "a root that is a free page",
    ),
];

#[test]
fn a_free_page_is_reached_by_its_chain(rt: HostRuntime) -> Result<(), Fail> {
    for &(at, byte, reason, place, what) in &CHANGED_CHAINS {
        let mut bytes = three_keys(&rt, rt.alloc())?;
        put(&rt, &mut bytes, at, byte);
        is_unsound(&rt, rt.alloc(), what, &bytes, reason, place);
    }
    Ok(())
}

#[test]
fn a_free_page_in_no_chain_is_lost(rt: HostRuntime) -> Result<(), Fail> {
    let mut bytes = three_keys(&rt, rt.alloc())?;
    put(&rt, &mut bytes, 19, 0);
    put(&rt, &mut bytes, 23, 0);
    is_unsound(
        &rt,
        rt.alloc(),
        "page 5",
        &bytes,
        Reason::Lost,
        FaultPlace::Page(5),
    );
    Ok(())
}

fn check_slowly(
    alloc: Global,
    bytes: &[u8],
    most: usize,
    interrupted: u32,
    fails: bool,
) -> Result<Verdict, CheckFault> {
    let mut reader = Slow {
        bytes,
        most,
        interrupted,
        times: 0,
        fails,
    };
    check_file(alloc, &mut reader)
}

// However the bytes come, the answer is the same; the end is not looked for behind the pages that are
// counted.
#[test]
fn a_file_may_come_in_parts(rt: HostRuntime) -> Result<(), Fail> {
    let bytes = one_record(&rt, rt.alloc())?;
    for &most in &[1, 3, 4095, 4096, 5000] {
        let found = check_slowly(rt.alloc(), &bytes, most, 0, true);
        assert_equal_for(&rt, most, found, Ok(SOUND_ONE));
    }
    let interrupted = check_slowly(rt.alloc(), &bytes, 4096, 999, false);
    assert_equal(&rt, interrupted, Ok(SOUND_ONE));
    Ok(())
}

/// A reader is a fault of the input that fails behind so many bytes.
fn is_fault_behind(rt: &impl Abort, alloc: Global, bytes: &[u8], length: usize) {
    match bytes.get(..length) {
        Some(part) => {
            let found = check_slowly(alloc, part, 4096, 0, true);
            assert_equal_for(rt, length, found, Err(CheckFault::Input));
        }
        None => assert_that(rt, false),
    }
}

#[test]
fn a_reader_that_fails_is_a_fault(rt: HostRuntime) -> Result<(), Fail> {
    let bytes = one_record(&rt, rt.alloc())?;
    // A thousand interrupted reads in a row.
    let interrupted = check_slowly(rt.alloc(), &bytes, 4096, 1000, false);
    assert_equal(&rt, interrupted, Err(CheckFault::Input));
    for &length in &[0, 1, 4096, 12287] {
        is_fault_behind(&rt, rt.alloc(), &bytes, length);
    }
    Ok(())
}

// What may stand at a place of the file of three keys: one thing, a byte of a next stamp that is above the
// stamps that were given, or any byte.
#[derive(Clone, Copy)]
enum Freedom {
    None,
    NextStamp,
    Any,
}

fn what_may_stand(at: usize) -> Freedom {
    let (page, place) = (at / 4096, at % 4096);
    match (page, place) {
        (0, 40..48) => Freedom::NextStamp,
        (1, 46..4096) | (2, 58..4096) | (3, 64..4096) | (5, 8..4096) => Freedom::Any,
        (4, 16..79) if (place - 16) % 21 >= 19 => Freedom::Any,
        (4, 79..4090) if (place - 16) % 21 >= 7 => Freedom::Any,
        // The slot number beside page 0, behind the last free slot.
        (4, 4074..4076) | (4, 4090..4096) => Freedom::Any,
        _ => Freedom::None,
    }
}

/// Whether a next stamp may stand: the greatest stamp of the file is 3, and none is above 2^63.
fn may_be_next(stamp: u64) -> bool {
    4 <= stamp && stamp <= 1 << 63
}

/// The next stamp that the header has.
fn next_stamp(bytes: &[u8]) -> u64 {
    let mut stamp = 0u64;
    for &byte in bytes.get(40..48).unwrap_or(&[]) {
        stamp = stamp.wrapping_mul(256).wrapping_add(u64::from(byte));
    }
    stamp
}

/// Whether a file is found sound where it may be, of which the byte at a place is changed, or stays the same.
fn stands_rightly(alloc: Global, bytes: &[u8], at: usize, is_same: bool) -> bool {
    let is_sound = check(alloc, bytes) == Ok(SOUND_THREE);
    match what_may_stand(at) {
        Freedom::None => is_sound == is_same,
        Freedom::NextStamp => is_sound == may_be_next(next_stamp(bytes)),
        Freedom::Any => is_sound,
    }
}

/// The byte at a place is changed to another, of which the file is found sound where it may be.
fn changes(rt: &impl Abort, alloc: Global, bytes: &mut [u8], at: usize, byte: u8) {
    let was = put(rt, bytes, at, byte);
    let is_right = stands_rightly(alloc, bytes, at, byte == was);
    assert_equal_for(rt, (at, byte), is_right, true);
    put(rt, bytes, at, was);
}

// Each byte of the file of three keys is changed to 0, to 255 and to its complement, one at a time.
#[test]
fn no_changed_byte_that_has_a_meaning_is_sound(rt: HostRuntime) -> Result<(), Fail> {
    let alloc = rt.alloc();
    let mut bytes = three_keys(&rt, alloc)?;
    for at in 0..6 * 4096 {
        let was = put(&rt, &mut bytes, at, 0);
        put(&rt, &mut bytes, at, was);
        changes(&rt, alloc, &mut bytes, at, 0);
        changes(&rt, alloc, &mut bytes, at, 255);
        changes(&rt, alloc, &mut bytes, at, !was);
    }
    Ok(())
}
