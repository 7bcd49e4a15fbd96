//! The log of the lines that a load rejects.

use crate::keeping::KeepsLines;
use crate::line_file::LineFile;
use crate::new_file::{NewFile, make_new};
use crate::rejected::{RejectLog, RejectedLine};
use crate::telling::{write_refusal, write_rejected};
use std::alloc::Global;
use std::io::Write;
use std::rt::Files;

/// A writer that is told of the lines that a load rejects: standard error, as far as that takes them; and
/// the new file that keeps them, if one is asked for.
#[derive(Drop)]
pub struct RejectedLines<W, R: Files + Drop> {
    out: W,
    rt: R,
    alloc: Global,
    /// The path of the file, as far as there was memory for it.
    path: Option<String>,
    file: LineFile<NewFile<R::File>>,
}

impl<W, R: Files + Drop> RejectedLines<W, R> {
    /// The lines, before the first. No file is asked for.
    pub fn new(rt: R, alloc: Global, out: W) -> RejectedLines<W, R> {
        RejectedLines {
            out,
            rt,
            alloc,
            path: None,
            file: LineFile::Unasked,
        }
    }
}

impl<W: Write, R: Files + Drop> RejectLog for RejectedLines<W, R> {
    ghost use Rattle.record_loading.specs.Kept.{KeepsMore, kept_in};

    // What the writer took is not promised, since it may fail.
    ghost tells = { λ old new _ line. KeepsMore (kept_in old.file) line (kept_in new.file) };

    fn tell(&mut self, rejected: RejectedLine, line: &[u8]) {
        let _told = write_rejected(&mut self.out, &rejected);
        self.file.keep(line);
    }
}

impl<W: Write, R: Files + Drop> KeepsLines for RejectedLines<W, R> {
    ghost use Rattle.record_loading.specs.Kept.{kept_in};

    ghost kept = { λ log. kept_in log.file };

    fn keeps_told() {}

    fn keep_in(&mut self, path: &str, head: &[u8]) -> bool {
        self.path = path.to_string(self.alloc).ok();
        self.file = LineFile::begin(make_new(&self.rt, path), head);
        self.file.is_whole()
    }

    fn finish(&mut self) -> bool {
        self.file.finish()
    }

    fn tell_refusal<E: Write>(&self, err: &mut E) {
        if let (Some(path), Some(kind)) = (&self.path, self.file.refusal()) {
            let _told = write_refusal(err, path.as_str(), kind);
        }
    }
}
