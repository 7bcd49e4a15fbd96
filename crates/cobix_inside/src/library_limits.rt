//! How large files may get.
ghost use Rattle.std.specs.Prelude.{◌≡◌, ◌≤◌, IfSome};
ghost use Rattle.std.specs.NonZero.{non_zero_usize_get};

use std::num::NonZeroUsize;

/// The fewest pages that a file may be limited to.
const FEWEST_PAGES: u32 = 16;

/// The most pages that a file may have, and how many of them are held in memory at most.
#[derive(Clone, Copy)]
pub struct LibraryLimits {
    pub pages: u32,
    pub frames: NonZeroUsize,
    ghost fewest: { 16 ≤ pages },
}

impl LibraryLimits {
    /// None where there are fewer than 16 pages, or no frame.
    pub fn of(pages: u32, frames: usize) -> Option<LibraryLimits>
        ensures pages { IfSome result (λ limits. limits.pages ≡ pages) }
        ensures frames { IfSome result (λ limits. non_zero_usize_get limits.frames ≡ frames) }
    {
        match NonZeroUsize::new(frames) {
            Some(frames) if pages >= FEWEST_PAGES => Some(LibraryLimits { pages, frames }),
            _ => None,
        }
    }
}
