//! The frames in which pages are kept that were read.

ghost use Rattle.std.specs.Prelude.{◌≡◌, ◌-◌, ◌^◌, ◌<◌, ◌≤◌, All, IfSome, length};
ghost use Rattle.std.specs.NonZero.{non_zero_usize_get};
ghost use Rattle.file_checker.specs.Frames.{IsFrameOf, SetsFrame};

use pages::PAGE_SIZE;
use std::alloc::Global;
use std::num::NonZeroUsize;

/// The number of no page.
const NO_PAGE: u32 = u32::MAX;

/// A page that was read, and its number.
#[derive(Clone, Copy)]
pub struct Frame {
    pub page: u32,
    pub bytes: [u8; PAGE_SIZE],
}

/// Frames without a page for a file of so many pages, `most` of them at most: none where memory is
/// wanting.
pub fn no_frames(alloc: Global, count: u32, most: NonZeroUsize) -> Vec<Frame>
    ensures clear { All (λ frame. frame.page ≡ 2 ^ 32 - 1) result.items }
    ensures few { length result.items ≤ non_zero_usize_get most }
{
    let none = Frame {
        page: NO_PAGE,
        bytes: [0; PAGE_SIZE],
    };
    match vec![in alloc; none; most.get().min(count as usize)] {
        Ok(frames) => frames,
        Err(_) => Vec::new(alloc),
    }
}

/// The place of the frame of page n, where it has that page.
pub fn held(frames: &[Frame], n: u32) -> Option<usize>
    ensures within { IfSome result (λ place. place < length frames.now) }
    ensures page { IfSome result (λ place. IsFrameOf frames.now n place) }
{
    if frames.is_empty() {
        return None;
    }
    let place = n as usize % frames.len();
    if frames[place].page != n {
        return None;
    }
    Some(place)
}

/// Keeps page n in its frame, in place of the page that it had.
pub fn keep(frames: &mut Vec<Frame>, n: u32, page: &[u8; PAGE_SIZE])
    ensures { SetsFrame n page.now frames.old.items frames.new.items }
{
    if frames.is_empty() {
        return;
    }
    let at = n as usize % frames.len();
    frames[at] = Frame {
        page: n,
        bytes: *page,
    };
}
