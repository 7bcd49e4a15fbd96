//! Lines that are rejected.
ghost use Rattle.std.specs.Prelude.{◌≡◌};
ghost use Rattle.record_loading.specs.Passing.{is_refused_for_keys, replaces_nothing};

use io_state::Status;
use record_text::LineMistake;

/// Why a line is rejected.
#[derive(Clone, Copy, Debug, PartialEq, Eq)]
pub enum RejectReason {
    /// The WRITE of its record was answered so.
    Refused(Status),
    /// It is the line of no record that the file can have, and has this mistake.
    NoRecord(LineMistake),
}

/// A line that a load rejected and passed over; the first line of the text is line 1.
#[derive(Clone, Copy, Debug, PartialEq, Eq)]
pub struct RejectedLine {
    pub line: u64,
    pub reason: RejectReason,
}

/// What is told of the lines that a load rejects and passes over.
pub trait RejectLog {
    ghost use Rattle.std.specs.Prelude.{ℕ, List};
    ghost use Rattle.record_loading.specs.declared.rejected.RejectedLine.{RejectedLine};

    /// How one follows another once it is told of a line and of its bytes.
    ghost tells: { Self → Self → RejectedLine → List ℕ → Type 0 };

    /// Tells of a line, which stands so in the text, with its line end.
    fn tell(&mut self, rejected: RejectedLine, line: &[u8])
        ensures { tells self.old self.new rejected line.now };
}

/// Whether a WRITE was refused for the keys of its record, so that the file can take other records.
pub fn is_refused_for_keys(status: Status) -> bool
    ensures { result ≡ is_refused_for_keys status }
{
    matches!(status, Status::DuplicateKey)
}

/// Whether a REWRITE that was answered so replaced nothing, so that the file can take other records.
pub fn replaces_nothing(status: Status) -> bool
    ensures { result ≡ replaces_nothing status }
{
    matches!(
        status,
        Status::DuplicateKey | Status::RecordNotFound | Status::NotOpenForUpdating
    )
}
