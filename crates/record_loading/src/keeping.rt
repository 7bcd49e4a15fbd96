//! A log of the lines that a load rejects, which can keep them in a file.

use crate::rejected::RejectLog;
use std::io::Write;

/// A log of the lines that a load rejects, which keeps their bytes in a file, where one is asked for.
pub trait KeepsLines: RejectLog {
    ghost use Rattle.std.specs.Prelude.{◌≡◌, ℕ, List, true};
    ghost use Rattle.record_loading.specs.declared.rejected.RejectedLine.{RejectedLine};
    ghost use Rattle.record_loading.specs.Kept.{Kept, All, KeepsMore, IsAllKept};

    /// What it keeps.
    ghost kept: { Self → Kept };

    /// It keeps the bytes of each line that it is told of.
    fn keeps_told()
        ensures { (old new : Self) (rejected : RejectedLine) (line : List ℕ)
            → Self.tells old new rejected line → KeepsMore (kept old) line (kept new) };

    /// From now on it keeps the lines in a new file of this path, behind these bytes. Whether the file was
    /// made, and took them. Where anything has this name, none is made.
    fn keep_in(&mut self, path: &str, head: &[u8]) -> bool
        ensures { result ≡ true → kept self.new ≡ All head.now };

    /// Brings what it keeps to the disk. Whether that is all that was to be kept, or no file is asked for.
    fn finish(&mut self) -> bool
        ensures same { result ≡ true → kept self.new ≡ kept self.old }
        ensures whole { result ≡ true → IsAllKept (kept self.old) };

    /// Tells, where the file was not made or has not all lines, its path and why.
    fn tell_refusal<E: Write>(&self, err: &mut E);
}
