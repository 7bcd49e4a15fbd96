//! Why a walk ends.

use crate::damage::Damage;
use crate::fault_place::FaultPlace;
use thiserror::Error;

/// Why a walk over the pages of a file gave up.
#[derive(Clone, Copy, Debug, PartialEq, Eq, Error)]
pub enum WalkFault {
    #[error("out of memory")]
    Memory,
    /// What is wrong, and where.
    #[error("{1}: {0}")]
    At(Damage, FaultPlace),
}

impl WalkFault {
    ghost use Rattle.std.specs.Prelude.{◌≡◌};

    /// A fault of a page.
    pub fn of_page(fault: Damage, page: u32) -> WalkFault
        ensures { result ≡ WalkFault.At fault (FaultPlace.Page page) }
    {
        WalkFault::At(fault, FaultPlace::Page(page))
    }

    /// A fault of an entry of a page.
    pub fn of_entry(fault: Damage, page: u32, entry: u32) -> WalkFault
        ensures { result ≡ WalkFault.At fault (FaultPlace.Entry page entry) }
    {
        WalkFault::At(fault, FaultPlace::Entry { page, entry })
    }
}
