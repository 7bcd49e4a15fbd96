//! A deck and its transcript as texts.

use std::alloc::Global;
use std::process::Abort;
use worked_decks::Step;

/// Adds a line to a text.
pub fn add_line(rt: &impl Abort, text: &mut String, line: &str) {
    text.push_str(line).expect(rt, "memory");
    text.push_str("\n").expect(rt, "memory");
}

/// The same so many times.
pub fn add_lines(rt: &impl Abort, text: &mut String, line: &str, times: u32) {
    for _ in 0..times {
        add_line(rt, text, line);
    }
}

/// The deck of a heading and these statements.
pub fn deck_of(rt: &impl Abort, alloc: Global, heading: &str, steps: &[Step]) -> String {
    let mut deck = heading.to_string(alloc).expect(rt, "memory");
    for (statement, _) in steps {
        add_line(rt, &mut deck, statement);
    }
    deck
}

/// Their lines.
pub fn transcript_of(rt: &impl Abort, alloc: Global, steps: &[Step]) -> String {
    let mut lines = String::new(alloc);
    for (_, line) in steps {
        if !line.is_empty() {
            add_line(rt, &mut lines, line);
        }
    }
    lines
}
