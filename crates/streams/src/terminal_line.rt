//! A line on a terminal that shows how far a command is.

use crate::progress::Progress;
use arrayvec::ArrayString;
use std::fmt::Write as _;
use std::io::Write;
use std::rt::Clock;
use std::time::{Duration, Instant};

/// The line is first written when a command has worked for longer than so many seconds.
const DELAY: u64 = 2;

/// And then written anew once in so many milliseconds at most.
const PAUSE: u64 = 500;

/// The most bytes of a line: two numbers of 20 digits, and 18 bytes around them.
const MOST_BYTES: usize = 58;

/// A line that shows how far a command is. The cursor stays at its begin.
#[derive(Drop)]
pub struct TerminalLine<'c, C, W> {
    clock: &'c C,
    out: W,
    /// When the line is to be written next, if ever.
    next: Option<Instant>,
    /// How many bytes of the line are shown.
    shown: usize,
}

/// The time after this duration, if the clock tells it.
fn time_after<C: Clock>(clock: &C, duration: Duration) -> Option<Instant> {
    Instant::now(clock).ok()?.checked_add(duration)
}

impl<'c, C: Clock, W: Write> TerminalLine<'c, C, W> {
    /// The line, before it is written. Where the writer is no terminal, or the clock does not tell
    /// the time, it never is.
    pub fn new(clock: &'c C, out: W, is_terminal: bool) -> TerminalLine<'c, C, W> {
        let next = if is_terminal {
            time_after(clock, Duration::from_secs(DELAY))
        } else {
            None
        };
        TerminalLine {
            clock,
            out,
            next,
            shown: 0,
        }
    }

    /// Whether it is time to write the line.
    fn is_due(&self) -> bool {
        match self.next {
            Some(next) => match Instant::now(self.clock) {
                Ok(now) => now >= next,
                Err(_) => false,
            },
            None => false,
        }
    }
}

/// The line for so many bytes of the whole; where more have come than were known, for so many bytes.
fn line_of(done: u64, whole: u64) -> ArrayString<MOST_BYTES> {
    let mut line = ArrayString::new();
    let _ = if done <= whole {
        write!(line, "cobix: {done} of {whole} bytes\r")
    } else {
        write!(line, "cobix: {done} bytes\r")
    };
    line
}

/// So many spaces, and the cursor back at the begin of the line.
fn blank_line(width: usize) -> ArrayString<MOST_BYTES> {
    let mut line = ArrayString::new();
    for _ in 1..width {
        let _ = line.try_push(' ');
    }
    let _ = line.try_push('\r');
    line
}

impl<'c, C: Clock, W: Write> Progress for TerminalLine<'c, C, W> {
    /// Writes the line, where it is time for it.
    fn at(&mut self, done: u64, whole: u64) {
        if self.is_due() {
            let line = line_of(done, whole);
            let _ = self.out.write_all(line.as_bytes());
            self.shown = line.len();
            self.next = time_after(self.clock, Duration::from_millis(PAUSE));
        }
    }

    /// Writes spaces over the line, where it is shown.
    fn wipe(&mut self) {
        if self.shown > 0 {
            let _ = self.out.write_all(blank_line(self.shown).as_bytes());
            self.shown = 0;
        }
    }

    fn silence(&mut self) {
        self.next = None;
    }
}
