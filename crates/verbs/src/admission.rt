//! The first checks of a verb on records.
ghost use Rattle.std.specs.Prelude.{◌≡◌, false, true, Some, IfOk, IfErr};
ghost use Rattle.verbs.specs.Admission.{not_open_for, is_for, IsRefusedFirst};

use crate::checks::{is_for_reading, is_for_updating};
use io_state::{Access, OpenMode, Status, Verb, permits};

/// What a verb does with the records of a file.
#[derive(Clone, Copy, Debug, PartialEq, Eq)]
pub enum Purpose {
    /// READ and START.
    Reading,
    /// WRITE.
    Writing,
    /// REWRITE and DELETE.
    Updating,
}

impl Purpose {
    /// What a verb answers whose file is closed, or open for other verbs: 47, 48 or 49.
    fn not_open(self) -> Status
        ensures { result ≡ not_open_for self }
    {
        match self {
            Purpose::Reading => Status::NotOpenForReading,
            Purpose::Writing => Status::NotOpenForWriting,
            Purpose::Updating => Status::NotOpenForUpdating,
        }
    }

    /// Whether such verbs are for a file that is open in this mode.
    fn is_for(self, access: Access, mode: OpenMode) -> bool
        ensures { result ≡ is_for self access mode }
    {
        match self {
            Purpose::Reading => is_for_reading(mode),
            Purpose::Writing => permits(access, mode, Verb::Write),
            Purpose::Updating => is_for_updating(mode),
        }
    }
}

/// The mode in which the file is open, for a verb that is for it. Else the status that refuses the
/// verb: 47, 48 or 49 where the file is closed, or open for other verbs, and 92 where the connector
/// has failed, whatever the mode.
pub fn admit(
    purpose: Purpose,
    access: Access,
    mode: Option<OpenMode>,
    failed: bool,
) -> Result<OpenMode, Status>
    ensures opened { IfOk result (λ opened. mode ≡ Some opened) }
    ensures works { IfOk result (λ opened. failed ≡ false) }
    ensures suits { IfOk result (λ opened. is_for purpose access opened ≡ true) }
    ensures refused { IfErr result (IsRefusedFirst purpose access mode failed) }
{
    let Some(opened) = mode else {
        return Err(purpose.not_open());
    };
    if failed {
        return Err(Status::ConnectorFailed);
    }
    let suits = purpose.is_for(access, opened);
    if !suits {
        return Err(purpose.not_open());
    }
    Ok(opened)
}
