//! Why the answering of requests ends without the end of the input.

/// Why a session ended before its input did.
#[derive(Clone, Copy, Debug, PartialEq, Eq)]
pub enum ServeFault {
    /// A read failed.
    Input,
    /// The writer refused an answer.
    Output,
    /// Memory was wanted before the first request.
    Memory,
}
