//! How a run ended, judged by its transcript alone.

use deck_runner::{RunEnd, RunFault};

/// A line without the record that it delivers.
fn head(line: &str) -> &str {
    match line.split_once(" [") {
        Some((head, _)) => head,
        None => line,
    }
}

// How a line ends that has a status of want of room, of a fault or of a connector that has failed.
const MARRED: [&str; 4] = [" 24", " 30", " 90", " 92"];

/// Whether a line ends with no such status; 91 may stand at an OPEN.
fn is_clean(line: &str) -> bool {
    let line = head(line);
    for status in &MARRED {
        if line.ends_with(*status) {
            return false;
        }
    }
    line.starts_with("OPEN ") || !line.ends_with(" 91")
}

/// Whether the end tells how many lines a transcript has, and whether all are clean.
pub fn tells(end: &Result<RunEnd, RunFault>, transcript: &str) -> bool {
    let (mut lines, mut clean) = (0u64, true);
    for line in transcript.lines() {
        lines = lines.saturating_add(1);
        clean = clean && is_clean(line);
    }
    match end {
        Ok(end) => end.lines == lines && end.clean == clean,
        Err(_) => false,
    }
}
