//! What the checker and a second reader find of a file.

use crate::checks::assert_equal_for;
use crate::second_reader::{Standing, read};
use file_checker::{Verdict, check_file};
use std::alloc::Global;
use std::process::Abort;

/// How many records the bytes stand for; none where they do not stand. Both readers agree on that, and on the
/// pages.
pub fn records_of(rt: &impl Abort, alloc: Global, bytes: &[u8]) -> Option<u64> {
    let mut reader = bytes;
    let verdict = check_file(alloc, &mut reader).expect(rt, "a verdict");
    let (standing, records) = match verdict {
        Verdict::Sound { records, pages } => {
            let pages = u64::from(pages);
            (Some(Standing { records, pages }), Some(records))
        }
        Verdict::Unsound(..) => (None, None),
    };
    assert_equal_for(rt, verdict, read(rt, alloc, bytes), standing);
    records
}
