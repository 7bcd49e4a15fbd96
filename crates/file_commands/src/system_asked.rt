//! What was known of a system before a file was read.

ghost use Rattle.folder_shelf.specs.SystemState.{SystemState};
ghost use Rattle.file_commands.specs.Since.{unasked_since};

use std::marker::Brand;

/// A system, before a file was read by it.
///
/// A caller passes `Brand`, and picks what it was at the call.
pub trait SystemAsked {
    /// What was known of it.
    ghost before: { SystemState };
}

impl SystemAsked for Brand {
    ghost before = { unasked_since };
}
