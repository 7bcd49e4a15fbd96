//! How far a load is, as it is told and as a terminal shows it.

use crate::checks::{assert_equal, assert_that};
use crate::loading::loads_with;
use memory_shelf::MemShelf;
use record_loading::Load;
use std::alloc::Global;
use std::cell::Cell;
use std::io::{self, Read};
use std::process::Abort;
use std::rt::Clock;
use std::time::Duration;
use streams::{Progress, ProgressReader, Silent, TerminalLine};

/// What is told of progress.
#[derive(Clone, Copy, PartialEq)]
enum Told {
    At(u64, u64),
    Wiped,
    Silenced,
}

/// Notes what is told, as far as there is memory.
#[derive(Drop)]
struct Noted {
    told: Vec<Told>,
    all: bool,
}

impl Noted {
    fn new(alloc: Global) -> Noted {
        Noted {
            told: Vec::new(alloc),
            all: true,
        }
    }

    fn note(&mut self, told: Told) {
        if self.told.push(told).is_err() {
            self.all = false;
        }
    }

    fn is(&self, told: &[Told]) -> bool {
        self.all && self.told.as_slice() == told
    }
}

impl Progress for Noted {
    fn at(&mut self, done: u64, whole: u64) {
        self.note(Told::At(done, whole));
    }

    fn wipe(&mut self) {
        self.note(Told::Wiped);
    }

    fn silence(&mut self) {
        self.note(Told::Silenced);
    }
}

/// A clock that shows what the test sets: so many milliseconds, or that it cannot be read.
#[derive(Drop)]
struct SetClock {
    milliseconds: Cell<Option<u64>>,
}

impl SetClock {
    fn new() -> SetClock {
        SetClock {
            milliseconds: Cell::new(Some(0)),
        }
    }

    fn set(&self, milliseconds: u64) {
        self.milliseconds.set(Some(milliseconds));
    }
}

impl Clock for SetClock {
    fn monotonic(&self) -> io::Result<Duration> {
        match self.milliseconds.get() {
            Some(milliseconds) => Ok(Duration::from_millis(milliseconds)),
            None => Err(io::ErrorKind::Unsupported.into()),
        }
    }

    fn since_1970(&self) -> io::Result<Duration> {
        self.monotonic()
    }
}

// Each line has 9 bytes.
const THREE: &str = "[0001AA]\n[0002BB]\n[0003CC]\n";

/// A text that is loaded into a new file is answered so, whatever is told of progress.
fn answers<P: Progress>(
    rt: &impl Abort,
    alloc: Global,
    text: &str,
    answer: &str,
    progress: &mut P,
) {
    let shelf = MemShelf::new(alloc);
    let (_, told) = loads_with(rt, alloc, shelf, Load::New, text, progress);
    assert_equal(rt, told.as_str(), answer);
}

#[test]
fn a_load_tells_how_far_it_is(rt: HostRuntime) {
    let mut progress = Noted::new(rt.alloc());
    answers(&rt, rt.alloc(), THREE, "loaded 3\n", &mut progress);
    let told = &[Told::At(9, 27), Told::At(18, 27), Told::At(27, 27)];
    assert_that(&rt, progress.is(told));
}

#[test]
fn a_load_that_is_refused_tells_of_no_more(rt: HostRuntime) {
    let mut progress = Noted::new(rt.alloc());
    let text = "[0001AA]\n[0001BB]\n[0003CC]\n";
    answers(&rt, rt.alloc(), text, "line 2: status 22\n", &mut progress);
    // The file is built up to the second line, and then the load begins anew.
    let told = &[Told::At(9, 27), Told::At(18, 27), Told::At(9, 27)];
    assert_that(&rt, progress.is(told));
}

/// Reads the next part, of at most 20 bytes.
fn read_part(rt: &impl Abort, reader: &mut impl Read, bytes: &mut Vec<u8>) {
    let mut part = [0; 20];
    let n = reader.read(&mut part).expect(rt, "a part");
    bytes.extend_from_slice(&part[..n]).expect(rt, "memory");
}

#[test]
fn a_reader_gives_its_bytes_and_tells_how_many_came(rt: HostRuntime) {
    let mut progress = Noted::new(rt.alloc());
    let mut bytes = Vec::new(rt.alloc());
    {
        let mut reader = ProgressReader::new(THREE.as_bytes(), 27, &mut progress);
        read_part(&rt, &mut reader, &mut bytes);
        read_part(&rt, &mut reader, &mut bytes);
        read_part(&rt, &mut reader, &mut bytes);
    }
    assert_equal(&rt, bytes.as_slice(), THREE.as_bytes());
    let told = &[Told::At(20, 27), Told::At(27, 27), Told::At(27, 27)];
    assert_that(&rt, progress.is(told));
}

/// So many bytes of 27 are done after so many milliseconds.
fn at(clock: &SetClock, line: &mut impl Progress, done: u64, milliseconds: u64) {
    clock.set(milliseconds);
    line.at(done, 27);
}

/// Room for what is written.
fn room(rt: &impl Abort, alloc: Global) -> Vec<u8> {
    Vec::with_capacity(alloc, 1000).expect(rt, "memory")
}

/// What a terminal, or another writer, was given of a load of 27 bytes, whose parts of 9 bytes were done
/// after so many milliseconds.
fn shown(rt: &impl Abort, alloc: Global, is_terminal: bool, times: [u64; 3]) -> Vec<u8> {
    let clock = SetClock::new();
    let mut out = room(rt, alloc);
    {
        let mut line = TerminalLine::new(&clock, &mut out, is_terminal);
        let [first, second, third] = times;
        at(&clock, &mut line, 9, first);
        at(&clock, &mut line, 18, second);
        at(&clock, &mut line, 27, third);
        line.wipe();
        line.wipe();
    }
    out
}

/// It was given these lines, one after another.
fn shows(rt: &impl Abort, alloc: Global, is_terminal: bool, times: [u64; 3], lines: &[&[u8]]) {
    let expected = lines.concat(alloc).expect(rt, "memory");
    let found = shown(rt, alloc, is_terminal, times);
    assert_equal(rt, found.as_slice(), expected.as_slice());
}

const SECOND: &[u8] = b"cobix: 18 of 27 bytes\r";

const THIRD: &[u8] = b"cobix: 27 of 27 bytes\r";

const WIPED: &[u8] = b"                     \r";

#[test]
fn the_line_is_written_after_two_seconds(rt: HostRuntime) {
    shows(&rt, rt.alloc(), true, [0, 1000, 1999], &[]);
    shows(&rt, rt.alloc(), true, [0, 1999, 2000], &[THIRD, WIPED]);
}

#[test]
fn the_line_is_written_twice_a_second_at_most(rt: HostRuntime) {
    shows(&rt, rt.alloc(), true, [0, 2000, 2499], &[SECOND, WIPED]);
    let lines = &[SECOND, THIRD, WIPED];
    shows(&rt, rt.alloc(), true, [0, 2000, 2500], lines);
}

#[test]
fn nothing_is_written_where_there_is_no_terminal(rt: HostRuntime) {
    shows(&rt, rt.alloc(), false, [2000, 4000, 6000], &[]);
}

#[test]
fn nothing_is_written_once_it_is_silenced(rt: HostRuntime) {
    let clock = SetClock::new();
    let mut out = room(&rt, rt.alloc());
    {
        let mut line = TerminalLine::new(&clock, &mut out, true);
        line.silence();
        at(&clock, &mut line, 9, 4000);
        line.wipe();
    }
    assert_that(&rt, out.is_empty());
}

#[test]
fn a_clock_that_fails_shows_no_line(rt: HostRuntime) {
    let clock = SetClock::new();
    let mut out = room(&rt, rt.alloc());
    {
        let mut line = TerminalLine::new(&clock, &mut out, true);
        clock.milliseconds.set(None);
        line.at(9, 27);
        line.wipe();
    }
    assert_that(&rt, out.is_empty());
}

const MORE: [&[u8]; 3] = [
    b"cobix: 28 bytes\r",
    b"cobix: 18446744073709551615 of 18446744073709551615 bytes\r",
    b"                                                         \r",
];

#[test]
fn more_bytes_than_were_known_are_told_alone(rt: HostRuntime) {
    let clock = SetClock::new();
    let mut out = room(&rt, rt.alloc());
    {
        let mut line = TerminalLine::new(&clock, &mut out, true);
        at(&clock, &mut line, 28, 2000);
        clock.set(3000);
        line.at(u64::MAX, u64::MAX);
        line.wipe();
    }
    let told = MORE.concat(rt.alloc()).expect(&rt, "memory");
    assert_equal(&rt, out.as_slice(), told.as_slice());
}

#[test]
fn a_silent_load_is_answered_as_any_other(rt: HostRuntime) {
    answers(&rt, rt.alloc(), THREE, "loaded 3\n", &mut Silent);
}
