//! How a session ended.

use crate::fault::ServeFault;

/// The end of a session: its library, why its requests ended if not with the input, and how many of
/// the files that were open then were closed with another status than 00.
#[derive(Drop)]
pub struct SessionEnd<L: Drop> {
    pub library: L,
    pub requests: Result<(), ServeFault>,
    pub unclosed: usize,
}
