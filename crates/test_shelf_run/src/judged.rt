//! What a transcript says of the file that its run leaves.

use crate::answers::{Connector, Fault, Found, Line, Mode, State, Verb, after, is_one_of, verb_of};
use worked_decks::{Step, Worked};

/// What the lines so far say.
#[derive(Clone, Copy)]
pub struct Judged {
    connector: Connector,
    /// How many CLOSE there were.
    closes: usize,
    /// The last CLOSE of a change that was done, counted from 1; 0 is the file before.
    pub kept: usize,
    /// A CLOSE of a change that has failed since.
    pub tried: Option<usize>,
    /// Whether a change was begun since.
    pub changed: bool,
    /// Whether the file was made.
    made: bool,
    /// Whether a READ by key has failed.
    pub astray: bool,
}

/// Before the first line.
const NOTHING: Judged = Judged {
    connector: Connector {
        state: State::AsWorked,
        mode: Mode::Input,
    },
    closes: 0,
    kept: 0,
    tried: None,
    changed: false,
    made: false,
    astray: false,
};

/// Whether a statement changes the file, or may have changed it when it failed.
fn is_change(verb: Verb, answer: &str) -> bool {
    match verb {
        Verb::Open(Mode::Output) | Verb::Write | Verb::Rewrite | Verb::Delete => {
            is_one_of(answer, &["00", "02", "30", "90"])
        }
        _ => false,
    }
}

impl Judged {
    /// With a CLOSE more, on a connector that had this state.
    fn with_close(self, was: State, answer: &str, fault: Fault) -> Judged {
        let closes = self.closes.saturating_add(1);
        if self.changed && answer == "00" {
            return Judged {
                closes,
                kept: closes,
                tried: None,
                changed: false,
                ..self
            };
        }
        let failed = answer == fault.answer && was != State::Failed;
        let tried = if failed { Some(closes) } else { self.tried };
        Judged {
            closes,
            tried,
            ..self
        }
    }

    /// With one line more, of a file that is there at first or not.
    fn with(self, is_there: bool, line: Line, fault: Fault) -> Option<Judged> {
        let found = Found {
            absent: !is_there && !self.made,
            refused: self.changed,
        };
        let connector = after(self.connector, line, fault, found)?;
        let judged = Judged { connector, ..self };
        Some(match line.verb {
            Verb::Close => judged.with_close(self.connector.state, line.answer, fault),
            Verb::Read if line.answer == fault.answer => Judged {
                astray: true,
                ..judged
            },
            Verb::Open(Mode::Output) if line.answer == "00" => Judged {
                changed: true,
                made: true,
                ..judged
            },
            verb if is_change(verb, line.answer) => Judged {
                changed: true,
                ..judged
            },
            _ => judged,
        })
    }
}

/// A line's verb and answer.
fn parts<'a>(line: &'a str, file: &str) -> Option<(&'a str, &'a str)> {
    let (verb, answer) = line.split_once(file)?;
    Some((verb.trim_end(), answer.trim_start()))
}

/// Whether some line of these delivers this record.
fn delivers(steps: &[Step], record: &str) -> bool {
    for (_, line) in steps {
        if line.ends_with(record) {
            return true;
        }
    }
    false
}

/// Whether some of these do.
fn is_delivered(reads: &[&[Step]], record: &str) -> bool {
    for steps in reads {
        if delivers(steps, record) {
            return true;
        }
    }
    false
}

/// Whether the record of an answer, if it has one, is one that the file has in the deck, before it or after
/// it, byte for byte.
fn is_of_file(worked: &Worked, answer: &str) -> bool {
    match answer.split_once(" ") {
        None => true,
        Some((_, record)) => {
            delivers(worked.steps, record)
                || is_delivered(worked.reads, record)
                || is_delivered(worked.astray, record)
        }
    }
}

/// The next line of a transcript, which has to be of the verb of the worked one.
fn line_of<'a>(worked: &Worked, line: &'a str, found: &'a str) -> Option<Line<'a>> {
    let (verb, expected) = parts(line, worked.file)?;
    let (other, answer) = parts(found, worked.file)?;
    if other == verb && is_of_file(worked, answer) {
        Some(Line {
            verb: verb_of(verb),
            answer,
            worked: expected,
        })
    } else {
        None
    }
}

/// Whether a statement of the deck has a line of the file: STOP RUN has none where the file is closed.
fn has_line(worked: &Worked, so_far: Judged, statement: &str, line: &str) -> bool {
    let is_closed = so_far.connector.state == State::Closed;
    line.contains(worked.file) && !(is_closed && statement == "STOP RUN.")
}

/// The place of the next statement that has a line of the file, from this one on; behind the last where none
/// has.
fn next_place(worked: &Worked, so_far: Judged, from: usize) -> usize {
    for (place, (statement, line)) in worked.steps.iter().enumerate() {
        if place >= from && has_line(worked, so_far, statement, line) {
            return place;
        }
    }
    worked.steps.len()
}

/// What the lines say with the next one, beside the worked line of this place.
fn with_next(
    worked: &Worked,
    so_far: Judged,
    place: usize,
    next: &str,
    fault: Fault,
) -> Option<Judged> {
    let (_, line) = worked.steps.get(place)?;
    let line = line_of(worked, line, next)?;
    so_far.with(!worked.before.is_empty(), line, fault)
}

/// What a transcript of the deck says of the file; none where it has a line of it that it may not have.
pub fn judge(worked: &Worked, transcript: &str, fault: Fault) -> Option<Judged> {
    let mut so_far = NOTHING;
    let mut from = 0;
    for next in transcript.lines() {
        if next.contains(worked.file) {
            let place = next_place(worked, so_far, from);
            so_far = with_next(worked, so_far, place, next, fault)?;
            from = place.saturating_add(1);
        }
    }
    if next_place(worked, so_far, from) < worked.steps.len() {
        return None;
    }
    Some(so_far)
}
