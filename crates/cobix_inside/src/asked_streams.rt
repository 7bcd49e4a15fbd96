//! The two streams.

use std::io::{Stdin, Stdout};

/// The handles of the streams. They take no bytes.
#[derive(Clone, Copy)]
pub(crate) struct Streams {
    pub(crate) input: Stdin,
    pub(crate) output: Stdout,
}
