//! What a file in memory keeps of a call.

#[derive(Drop)]
pub(crate) enum Event {
    Created,
    /// Where a write began, and its number of bytes.
    Wrote(usize, usize),
    /// The bytes that were synced.
    Synced(Vec<u8>),
}
