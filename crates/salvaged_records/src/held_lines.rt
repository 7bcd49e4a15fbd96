//! Lines that are held, and the room for one more.

use streams::HeldText;

/// Lines that are held, the room in which the next one is put together, and how many slots were
/// written.
#[derive(Drop)]
pub struct HeldLines {
    pub lines: HeldText,
    pub line: Vec<u8>,
    pub count: u64,
}
