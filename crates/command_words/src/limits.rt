//! How large files may get, in a folder and in memory.
ghost use Rattle.std.specs.Prelude.{◌≡◌, ◌≤◌, ◌<◌, None};
ghost use Rattle.std.specs.Option.{IfSome};

use std::num::NonZeroUsize;

/// The fewest pages that a file may be limited to.
pub const FEWEST_PAGES: u32 = 16;

/// The most pages of a file that may be held in memory.
pub const MOST_FRAMES: usize = 4096;

/// The most pages of 4,096 bytes that a file may have, and how many of them are held in memory at
/// most while it is open.
#[derive(Clone, Copy, Debug, PartialEq, Eq)]
pub struct Limits {
    pub pages: u32,
    pub frames: NonZeroUsize,
    ghost fewest: { 16 ≤ pages },
}

impl Limits {
    /// None where there are fewer than 16 pages, no frame, or more than 4,096 frames.
    pub fn of(pages: u32, frames: usize) -> Option<Limits>
        ensures some { IfSome result (λ limits. (limits.pages ≡ pages) × (limits.frames.value ≡ frames)
            × (0 < frames) × (frames ≤ 4096)) }
        ensures none { result ≡ None → 16 ≤ pages → 0 < frames → frames ≤ 4096 → ⊥ }
    {
        if frames > MOST_FRAMES {
            return None;
        }
        match NonZeroUsize::new(frames) {
            Some(frames) if pages >= FEWEST_PAGES => Some(Limits { pages, frames }),
            _ => None,
        }
    }
}
