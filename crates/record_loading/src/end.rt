//! How records are loaded, and how that ends.
ghost use Rattle.std.specs.Prelude.{◌≡◌};
ghost use Rattle.record_loading.specs.Loading.{mode_of};

use io_state::{OpenMode, Status};
use record_text::LineMistake;
use thiserror::Error;

/// Into what records are loaded.
#[derive(Clone, Copy, Debug, PartialEq, Eq)]
pub enum Load {
    /// A new file, in the place of whatever the name stands for.
    New,
    /// The file that is there.
    Into,
}

/// How the lines of a text ended, the first of which is line 1.
#[derive(Clone, Copy, Debug, PartialEq, Eq)]
pub enum LinesEnd {
    /// So many records were written, so many replaced others, and so many lines were rejected and passed
    /// over.
    Loaded {
        records: u64,
        replaced: u64,
        rejected: u64,
    },
    /// The WRITE of the record of this line was no success, or a REWRITE behind it. Those of the lines
    /// before it were written, but for lines that were skipped or rejected.
    Refused {
        line: u64,
        status: Status,
    },
    /// This line is the line of no record that the file can have, and has this mistake. The records of
    /// the lines before it were written, but for lines that were skipped or rejected.
    NoRecord {
        line: u64,
        mistake: LineMistake,
    },
}

/// What became of a load.
#[derive(Clone, Copy, Debug, PartialEq, Eq)]
pub enum LoadEnd {
    /// OPEN was no success, and no record was written.
    NotOpened { status: Status },
    /// The file was opened, the lines ended so, and CLOSE answered this.
    Opened { lines: LinesEnd, closed: Status },
}

/// Why nothing was loaded.
#[derive(Clone, Copy, Debug, PartialEq, Eq, Error)]
pub enum LoadFault {
    #[error("out of memory")]
    Memory,
}

/// The mode in which OPEN opens the file. In both of them WRITE takes records in any order, where
/// access is not sequential.
pub fn mode_of(load: Load) -> OpenMode
    ensures { result ≡ mode_of load }
{
    match load {
        Load::New => OpenMode::Output,
        Load::Into => OpenMode::InputOutput,
    }
}
