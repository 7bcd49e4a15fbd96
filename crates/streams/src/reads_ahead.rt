//! What has come of an input before it is asked for.
ghost use Rattle.std.specs.Prelude.{◌≡◌, List, ℕ};

use std::io::{BufReader, Read};

/// A reader that tells which bytes have come and were not taken yet. That they are the next ones is
/// not promised, and a reader may tell none at any time: so they are good for deciding when to
/// wait, and for nothing else.
pub trait ReadsAhead {
    /// The bytes that it tells.
    ghost told: { Self → List ℕ };

    fn ahead(&self) -> &[u8]
        ensures { result.now ≡ told self.now };
}

impl<R: Read> ReadsAhead for BufReader<R> {
    ghost use Rattle.std.specs.Io.Buffered.{reader_buffer};

    ghost told = { reader_buffer };

    fn ahead(&self) -> &[u8] {
        self.buffer()
    }
}
