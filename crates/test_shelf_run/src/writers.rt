//! Writers that refuse a line of the transcript.

ghost use Rattle.std.specs.Prelude.{◌≤◌, length};

use crate::checks::{assert_equal, assert_equal_for, assert_that};
use crate::decks::{add_lines, deck_of, transcript_of};
use crate::left::reads_as;
use crate::running::{run_into, run_over_lists, shelf_before};
use deck_runner::{RunEnd, RunFault, run_deck};
use list_library::ListLibrary;
use memory_shelf::MemShelf;
use std::alloc::Global;
use std::io::{self, ErrorKind, Write};
use std::process::Abort;
use worked_decks::{A_CLASH, ONE_IS_READ, REFUSED, Step, WRITTEN_AND_READ_BACK};

/// What a writer does where it has no room left.
#[derive(Clone, Copy, Debug)]
enum Refusal {
    TakesNothing,
    Fails,
    /// It is interrupted so many times in a row, and then takes all that it is given.
    Interrupted(u32),
}

/// A writer with room for so many bytes.
#[derive(Drop)]
struct Narrow {
    taken: Vec<u8>,
    room: usize,
    refusal: Refusal,
    /// How many times in a row it was interrupted.
    interrupted: u32,
    /// How often it was called.
    calls: u64,
}

impl Narrow {
    fn new(alloc: Global, room: usize, refusal: Refusal) -> Narrow {
        Narrow {
            taken: Vec::new(alloc),
            room,
            refusal,
            interrupted: 0,
            calls: 0,
        }
    }

    /// Takes the front of these bytes, as many as there is room for.
    fn take(&mut self, bytes: &[u8], room: usize) -> usize
        ensures within { result ≤ length bytes.now }
    {
        let n = bytes.len().min(room);
        if self.taken.extend_from_slice(&bytes[..n]).is_err() {
            return 0;
        }
        n
    }
}

impl Write for Narrow {
    fn write(&mut self, bytes: &[u8]) -> io::Result<usize> {
        self.calls = self.calls.saturating_add(1);
        if self.room > 0 {
            let n = self.take(bytes, self.room);
            self.room = self.room.saturating_sub(n);
            return Ok(n);
        }
        match self.refusal {
            Refusal::TakesNothing => Ok(0),
            Refusal::Fails => Err(ErrorKind::BrokenPipe.into()),
            Refusal::Interrupted(times) if self.interrupted < times => {
                self.interrupted = self.interrupted.saturating_add(1);
                Err(ErrorKind::Interrupted.into())
            }
            Refusal::Interrupted(_) => {
                self.interrupted = 0;
                Ok(self.take(bytes, bytes.len()))
            }
        }
    }

    fn flush(&mut self) -> io::Result<()> {
        Ok(())
    }
}

/// How many lines end among these bytes.
fn lines_in(bytes: &[u8]) -> usize {
    let mut lines = 0usize;
    for &byte in bytes {
        lines = lines.saturating_add(usize::from(byte == b'\n'));
    }
    lines
}

/// The front of a transcript that has room.
fn front_of(transcript: &str, room: usize) -> &[u8] {
    let whole = transcript.as_bytes();
    &whole[..room.min(whole.len())]
}

/// What the file reads as where only these bytes of the transcript were taken. The fourth line is that of
/// CLOSE: it is performed before its line is refused.
fn left_of(taken: &[u8]) -> &'static [Step] {
    if lines_in(taken) < 3 {
        REFUSED
    } else {
        ONE_IS_READ
    }
}

/// A run with a writer that has room for the front of its transcript alone.
#[derive(Clone, Copy)]
struct Cut<'a> {
    heading: &'a str,
    deck: &'a str,
    room: usize,
    refusal: Refusal,
    /// What the writer takes.
    front: &'a [u8],
    /// What the file reads as afterwards.
    left: &'static [Step],
}

impl<'a> Cut<'a> {
    /// Whether the run was broken off by a writer, behind what it has taken.
    fn is_met(&self, out: &Narrow, end: Result<RunEnd, RunFault>) -> bool {
        end == Err(RunFault::Output) && out.taken.as_slice() == self.front
    }

    /// Whether the run over these pages is broken off, and the next run over the same files finds what it has
    /// to.
    fn is_broken_off_over_pages(
        &self,
        rt: &impl Abort,
        alloc: Global,
        shelf: MemShelf,
        limit: u32,
    ) -> bool
        requires { 16 ≤ limit }
    {
        let mut out = Narrow::new(alloc, self.room, self.refusal);
        let (shelf, end) = run_into(rt, alloc, shelf, self.deck, limit, 1, &mut out);
        self.is_met(&out, end) && reads_as(rt, alloc, &shelf, self.heading, self.left)
    }

    /// The same over lists.
    fn is_broken_off_over_lists(
        &self,
        rt: &impl Abort,
        alloc: Global,
        library: &mut ListLibrary,
    ) -> bool {
        let mut out = Narrow::new(alloc, self.room, self.refusal);
        let end = run_deck(alloc, self.deck.as_bytes(), library, &mut out);
        let next = deck_of(rt, alloc, self.heading, self.left);
        let (read, _) = run_over_lists(rt, alloc, library, &next);
        self.is_met(&out, end) && read == transcript_of(rt, alloc, self.left)
    }
}

/// Whether a run with this writer is broken off behind what the writer has taken, over pages and over lists,
/// and the next run over the same files finds what it has to.
fn is_broken_off(rt: &impl Abort, alloc: Global, room: usize, refusal: Refusal) -> bool {
    let worked = &WRITTEN_AND_READ_BACK;
    let deck = deck_of(rt, alloc, worked.heading, worked.steps);
    let transcript = transcript_of(rt, alloc, worked.steps);
    let front = front_of(&transcript, room);
    let cut = Cut {
        heading: worked.heading,
        deck: &deck,
        room,
        refusal,
        front,
        left: left_of(front),
    };
    cut.is_broken_off_over_pages(rt, alloc, MemShelf::new(alloc), 16)
        && cut.is_broken_off_over_lists(rt, alloc, &mut ListLibrary::new(alloc))
}

const REFUSALS: [Refusal; 3] = [
    Refusal::TakesNothing,
    Refusal::Fails,
    Refusal::Interrupted(1000),
];

#[test]
fn behind_a_line_that_the_writer_refuses_no_file_is_changed(rt: HostRuntime) {
    let transcript = transcript_of(&rt, rt.alloc(), WRITTEN_AND_READ_BACK.steps);
    for &refusal in &REFUSALS {
        for room in 0..transcript.len() {
            let is_so = is_broken_off(&rt, rt.alloc(), room, refusal);
            assert_equal_for(&rt, (refusal, room), is_so, true);
        }
    }
}

/// Whether a run was whole, and this writer has taken all lines.
fn has_all(out: &Narrow, end: Result<RunEnd, RunFault>, transcript: &str) -> bool {
    end.is_ok() && out.taken.as_slice() == transcript.as_bytes()
}

/// Whether a run is whole over pages, where each write behind the first bytes is interrupted so many times
/// and then takes all.
fn is_whole_over_pages(
    rt: &impl Abort,
    alloc: Global,
    deck: &str,
    transcript: &str,
    room: usize,
    times: u32,
) -> bool {
    let mut out = Narrow::new(alloc, room, Refusal::Interrupted(times));
    let (_, end) = run_into(rt, alloc, MemShelf::new(alloc), deck, 16, 1, &mut out);
    has_all(&out, end, transcript)
}

/// The same over lists.
fn is_whole_over_lists(
    alloc: Global,
    deck: &str,
    transcript: &str,
    room: usize,
    times: u32,
) -> bool {
    let mut library = ListLibrary::new(alloc);
    let mut out = Narrow::new(alloc, room, Refusal::Interrupted(times));
    let end = run_deck(alloc, deck.as_bytes(), &mut library, &mut out);
    has_all(&out, end, transcript)
}

#[test]
fn a_writer_may_be_interrupted_999_times_in_a_row(rt: HostRuntime) {
    let alloc = rt.alloc();
    let worked = &WRITTEN_AND_READ_BACK;
    let deck = deck_of(&rt, alloc, worked.heading, worked.steps);
    let transcript = transcript_of(&rt, alloc, worked.steps);
    for &room in &[0, 1, 18, 19, 20, 100] {
        for &times in &[1, 999] {
            let is_so = is_whole_over_pages(&rt, alloc, &deck, &transcript, room, times)
                && is_whole_over_lists(alloc, &deck, &transcript, room, times);
            assert_equal_for(&rt, (room, times), is_so, true);
        }
    }
}

/// Three records are read, and then a fourth is written.
const READ_AND_WRITTEN: &[Step] = &[
    ("OPEN I-O CUST.", "OPEN I-O CUST 00"),
    ("READ CUST NEXT.", "READ NEXT CUST 00 [0001ADAMS OSLO  ]"),
    ("READ CUST NEXT.", "READ NEXT CUST 00 [0002SMITH BERGEN]"),
    ("READ CUST NEXT.", "READ NEXT CUST 00 [0003SVEN  TROMSO]"),
    (
        "MOVE 3 TO CUST-ID. READ CUST.",
        "READ CUST 00 [0003SVEN  TROMSO]",
    ),
    ("MOVE 4 TO CUST-ID. MOVE \"ROTH\" TO CUST-NAME.", ""),
    (
        "MOVE \"MOSS\" TO CUST-CITY. WRITE CUST-REC.",
        "WRITE CUST 00",
    ),
    ("STOP RUN.", "CLOSE CUST 00"),
];

/// The file as it is where the fourth record was not written.
const THREE_ARE_READ: &[Step] = &[
    ("OPEN INPUT CUST.", "OPEN INPUT CUST 00"),
    ("READ CUST NEXT.", "READ NEXT CUST 00 [0001ADAMS OSLO  ]"),
    ("READ CUST NEXT.", "READ NEXT CUST 00 [0002SMITH BERGEN]"),
    ("READ CUST NEXT.", "READ NEXT CUST 00 [0003SVEN  TROMSO]"),
    ("READ CUST NEXT.", "READ NEXT CUST 10"),
    ("STOP RUN.", "CLOSE CUST 00"),
];

/// What the three records read as where only these bytes of that transcript were taken, less than all but the
/// last line. The sixth line is that of WRITE.
fn left_behind_reads(taken: &[u8]) -> &'static [Step] {
    if lines_in(taken) < 5 {
        THREE_ARE_READ
    } else {
        REFUSED
    }
}

/// Lists with that file.
fn lists_before(rt: &impl Abort, alloc: Global) -> ListLibrary {
    let mut library = ListLibrary::new(alloc);
    let before = deck_of(rt, alloc, A_CLASH.heading, A_CLASH.before);
    let (_, end) = run_over_lists(rt, alloc, &mut library, &before);
    end.expect(rt, "a run that is not broken off");
    library
}

/// Whether the run with a writer of so much room leaves, over pages and over lists, what it has to.
fn leaves_what_was_read(rt: &impl Abort, alloc: Global, room: usize, refusal: Refusal) -> bool {
    let deck = deck_of(rt, alloc, A_CLASH.heading, READ_AND_WRITTEN);
    let transcript = transcript_of(rt, alloc, READ_AND_WRITTEN);
    let front = front_of(&transcript, room);
    let cut = Cut {
        heading: A_CLASH.heading,
        deck: &deck,
        room,
        refusal,
        front,
        left: left_behind_reads(front),
    };
    cut.is_broken_off_over_pages(rt, alloc, shelf_before(rt, alloc, &A_CLASH), 4000)
        && cut.is_broken_off_over_lists(rt, alloc, &mut lists_before(rt, alloc))
}

// The lines of the READs are held until the WRITE, which is performed only where the writer took all of them:
// 160 bytes.
#[test]
fn a_write_behind_reads_waits_for_their_lines(rt: HostRuntime) {
    for &refusal in &[Refusal::TakesNothing, Refusal::Fails] {
        for &room in &[0, 16, 17, 18, 54, 90, 128, 159, 160, 161, 173] {
            let is_so = leaves_what_was_read(&rt, rt.alloc(), room, refusal);
            assert_equal_for(&rt, (refusal, room), is_so, true);
        }
    }
}

/// A deck with 10,000 READs of a file that is not there, and its transcript.
fn many_reads(rt: &impl Abort, alloc: Global) -> (String, String) {
    let opened = &[("OPEN INPUT CUST.", "OPEN INPUT CUST 35")];
    let mut deck = deck_of(rt, alloc, WRITTEN_AND_READ_BACK.heading, opened);
    let mut transcript = transcript_of(rt, alloc, opened);
    add_lines(rt, &mut deck, "    READ CUST.", 10_000);
    add_lines(rt, &mut transcript, "READ NEXT CUST 47", 10_000);
    add_lines(rt, &mut deck, "    STOP RUN.", 1);
    (deck, transcript)
}

// 10,000 lines of READs are 180,000 bytes: two parts of at most 65,536 bytes are handed over as the next line
// has no room, and the rest before the CLOSE.
#[test]
fn the_lines_of_reads_are_handed_over_together(rt: HostRuntime) {
    let alloc = rt.alloc();
    let (deck, transcript) = many_reads(&rt, alloc);
    let mut out = Narrow::new(alloc, usize::MAX, Refusal::Fails);
    let (_, end) = run_into(&rt, alloc, MemShelf::new(alloc), &deck, 16, 1, &mut out);
    assert_that(&rt, has_all(&out, end, &transcript));
    assert_equal(&rt, out.calls, 3);
}
