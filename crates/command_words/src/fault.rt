//! Why words are not read.

use std::alloc::AllocError;

/// Why the words of a command line ask for nothing.
#[derive(Debug, Drop)]
pub enum WordsFault {
    /// They are not understood: why, and the usage.
    Usage(clap::Error),
    /// Memory was refused.
    Memory,
}

impl From<AllocError> for WordsFault {
    ghost use Rattle.std.specs.Prelude.{◌≡◌};
    ghost use Rattle.command_words.specs.declared.fault.WordsFault.TheVariants.{Memory};

    ghost from_gives = { λ _ fault. fault ≡ Memory };

    fn from(_error: AllocError) -> WordsFault {
        WordsFault::Memory
    }
}
