//! Worked decks over pages and over lists.

use crate::checks::{assert_equal_for, assert_that};
use crate::decks::{deck_of, transcript_of};
use crate::running::{run_over, run_over_lists};
use crate::two_thousand::{deck_of_two_thousand, lines_of_two_thousand};
use list_library::ListLibrary;
use memory_shelf::MemShelf;
use std::alloc::Global;
use std::process::Abort;
use worked_decks::{
    A_CLASH, A_DUPLICATE_REWRITTEN, A_NEW_DUPLICATE, A_NEW_TWIN, A_SHORTER_RECORD, AN_EMPTY_FILE,
    AN_OPTIONAL_FILE, BESIDE_STOCK, CHANGED_IN_SEQUENCE, CHANGED_LENGTHS, DUPLICATES_IN_ORDER,
    EXTENDED_IN_ORDER, IN_THE_WRONG_STATE, LOW_AND_HIGH_VALUES, ONE_LENGTH, ORDER_OF_WRITING,
    PAYROLL, REFUSED_BY_KEY, REFUSED_IN_ORDER, REPLACED, Runs, STARTED_BY_A_LETTER,
    STARTED_PAST_THE_END, Step, WRITTEN_AND_READ_BACK, Worked,
};

/// A heading, and steps.
type Deck = (&'static str, &'static [Step]);

/// Whether a deck has its transcript over lists.
fn is_so_over_lists(
    rt: &impl Abort,
    alloc: Global,
    library: &mut ListLibrary,
    heading: &str,
    steps: &[Step],
) -> bool {
    let deck = deck_of(rt, alloc, heading, steps);
    let (transcript, end) = run_over_lists(rt, alloc, library, &deck);
    end.is_ok() && transcript == transcript_of(rt, alloc, steps)
}

/// Whether it has over pages, and the shelf behind it.
fn is_so_over_pages(
    rt: &impl Abort,
    alloc: Global,
    shelf: MemShelf,
    heading: &str,
    steps: &[Step],
    frames: usize,
) -> (MemShelf, bool) {
    let deck = deck_of(rt, alloc, heading, steps);
    let (shelf, transcript) = run_over(rt, alloc, shelf, &deck, frames);
    let is_so = transcript == transcript_of(rt, alloc, steps);
    (shelf, is_so)
}

/// Whether decks that are run one after another have their transcripts over lists.
fn are_so_over_lists(rt: &impl Abort, alloc: Global, decks: &[Deck]) -> bool {
    let mut library = ListLibrary::new(alloc);
    for (heading, steps) in decks {
        if !is_so_over_lists(rt, alloc, &mut library, heading, steps) {
            return false;
        }
    }
    true
}

/// Whether they have over pages.
fn are_so_over_pages(rt: &impl Abort, alloc: Global, decks: &[Deck], frames: usize) -> bool {
    let mut shelf = MemShelf::new(alloc);
    for (heading, steps) in decks {
        let (left, is_so) = is_so_over_pages(rt, alloc, shelf, heading, steps, frames);
        if !is_so {
            return false;
        }
        shelf = left;
    }
    true
}

/// Decks that are run one after another have their transcripts over lists, and over pages with any number of
/// frames.
fn have_their_transcripts(rt: &impl Abort, alloc: Global, decks: &[Deck]) {
    assert_that(rt, are_so_over_lists(rt, alloc, decks));
    for &frames in &[1, 2, 64, 4096] {
        let are_so = are_so_over_pages(rt, alloc, decks, frames);
        assert_equal_for(rt, frames, are_so, true);
    }
}

const WORKED: [Worked; 9] = [
    WRITTEN_AND_READ_BACK,
    REFUSED_IN_ORDER,
    A_CLASH,
    REFUSED_BY_KEY,
    A_NEW_TWIN,
    REPLACED,
    A_DUPLICATE_REWRITTEN,
    DUPLICATES_IN_ORDER,
    PAYROLL,
];

/// The decks that make a file, use it and read it have their transcripts.
fn has_its_transcript(rt: &impl Abort, alloc: Global, worked: &Worked) {
    let heading = worked.heading;
    let nothing: &[Step] = &[];
    let after = *worked.reads.last().unwrap_or(&nothing);
    let decks = [
        (heading, worked.before),
        (heading, worked.steps),
        (heading, after),
    ];
    have_their_transcripts(rt, alloc, &decks);
}

#[test]
fn a_worked_deck_has_its_transcript(rt: HostRuntime) {
    for worked in &WORKED {
        has_its_transcript(&rt, rt.alloc(), worked);
    }
}

const RUNS: [Runs; 14] = [
    EXTENDED_IN_ORDER,
    AN_EMPTY_FILE,
    ORDER_OF_WRITING,
    STARTED_BY_A_LETTER,
    STARTED_PAST_THE_END,
    A_NEW_DUPLICATE,
    CHANGED_IN_SEQUENCE,
    AN_OPTIONAL_FILE,
    IN_THE_WRONG_STATE,
    BESIDE_STOCK,
    A_SHORTER_RECORD,
    LOW_AND_HIGH_VALUES,
    CHANGED_LENGTHS,
    ONE_LENGTH,
];

#[test]
fn runs_over_the_same_files_have_their_transcripts(rt: HostRuntime) {
    for runs in &RUNS {
        have_their_transcripts(&rt, rt.alloc(), runs.decks);
    }
}

#[test]
fn two_thousand_records_are_read_by_both_keys_over_lists(rt: HostRuntime) {
    let alloc = rt.alloc();
    let mut library = ListLibrary::new(alloc);
    let deck = deck_of_two_thousand(&rt, alloc, 116);
    let (transcript, end) = run_over_lists(&rt, alloc, &mut library, &deck);
    assert_that(&rt, end.is_ok());
    let expected = lines_of_two_thousand(&rt, alloc, 116);
    assert_that(&rt, transcript == expected);
}

/// Two thousand records whose keys have so many bytes more than four.
fn are_read_by_both_keys(rt: &impl Abort, alloc: Global, more: usize, frames: usize) {
    let deck = deck_of_two_thousand(rt, alloc, more);
    let (_, transcript) = run_over(rt, alloc, MemShelf::new(alloc), &deck, frames);
    let is_so = transcript == lines_of_two_thousand(rt, alloc, more);
    assert_equal_for(rt, (more, frames), is_so, true);
}

// Keys of 120 bytes, and of 250, of which four are digits.
#[test]
fn two_thousand_records_are_read_by_both_keys_over_pages(rt: HostRuntime) {
    are_read_by_both_keys(&rt, rt.alloc(), 116, 1);
    are_read_by_both_keys(&rt, rt.alloc(), 116, 64);
    are_read_by_both_keys(&rt, rt.alloc(), 246, 1);
}
