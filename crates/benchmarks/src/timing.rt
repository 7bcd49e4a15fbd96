//! The time that passed.

use std::io;
use std::time::{Clock, Instant};

/// The nanoseconds since then.
pub fn nanoseconds_since(clock: &impl Clock, start: Instant) -> io::Result<u128> {
    Ok(start.elapsed(clock)?.as_nanos())
}
