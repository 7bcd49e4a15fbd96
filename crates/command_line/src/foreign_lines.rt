//! What of a line that is no record's is no byte of a record, told after its mistake.
use record_loading::{
    KeepsLines, LinesEnd, LoadEnd, RejectLog, RejectReason, RejectedLine, ShelfEnd,
};
use std::io::Write;
use streams::{Foreign, ForeignLines};

/// Tells what of the line of this number is no byte of a record, if anything is.
fn tell_foreign<E: Write>(lines: &mut ForeignLines<'_>, number: u64, err: &mut E) {
    let _ = match lines.first_in(number) {
        Some(Foreign::Character(code)) => {
            writeln!(err, "line {number}: U+{code:04X}, which is no byte")
        }
        Some(Foreign::Byte(byte)) => {
            writeln!(err, "line {number}: byte {byte:02x}, which is no UTF-8")
        }
        None => Ok(()),
    };
}

/// A log of the lines that a load of a text in UTF-8 rejects, over another one. After each line that is
/// no record's it tells what of it is no byte. Of an empty text it tells nothing.
#[derive(Drop)]
pub struct ForeignLog<'a, R, E> {
    rejects: &'a mut R,
    lines: ForeignLines<'a>,
    err: &'a mut E,
}

impl<'a, R: KeepsLines, E: Write> ForeignLog<'a, R, E> {
    /// The log, before the first line.
    pub fn new(rejects: &'a mut R, text: &'a [u8], err: &'a mut E) -> ForeignLog<'a, R, E> {
        ForeignLog {
            rejects,
            lines: ForeignLines::new(text),
            err,
        }
    }

    /// Tells so of the line that ended the load, if it is that of no record.
    pub fn tell_end(&mut self, end: ShelfEnd) {
        if let ShelfEnd::Loaded(
            LoadEnd::Opened {
                lines: LinesEnd::NoRecord { line, .. },
                ..
            },
        ) = end
        {
            tell_foreign(&mut self.lines, line, self.err);
        }
    }
}

impl<'a, R: KeepsLines, E: Write> RejectLog for ForeignLog<'a, R, E> {
    ghost use Rattle.record_loading.specs.Kept.{KeepsMore};

    // What the writer took is not promised, since it may fail.
    ghost tells = { λ old new _ line.
        KeepsMore (R.KeepsLines.kept old.rejects.now) line (R.KeepsLines.kept new.rejects.now) };

    fn tell(&mut self, rejected: RejectedLine, line: &[u8]) {
        let is_no_record = matches!(rejected.reason, RejectReason::NoRecord(_));
        let number = rejected.line;
        self.rejects.tell(rejected, line);
        R::keeps_told();
        if is_no_record {
            tell_foreign(&mut self.lines, number, self.err);
        }
    }
}

impl<'a, R: KeepsLines, E: Write> KeepsLines for ForeignLog<'a, R, E> {
    ghost kept = { λ log. R.KeepsLines.kept log.rejects.now };

    fn keeps_told() {}

    fn keep_in(&mut self, path: &str, head: &[u8]) -> bool {
        self.rejects.keep_in(path, head)
    }

    fn finish(&mut self) -> bool {
        self.rejects.finish()
    }

    fn tell_refusal<X: Write>(&self, err: &mut X) {
        self.rejects.tell_refusal(err);
    }
}
