//! Requests that only read.
ghost use Rattle.std.specs.Prelude.{◌≡◌};
ghost use Rattle.serve.specs.Reading.{request_in};
ghost use Rattle.serve.specs.Reads.{asks_to_read};

use crate::request::{SessionRequest, read_request};
use deck_runner::only_reads;

/// Whether the body of a frame asks for READ, READ NEXT or START, which leave all files as they are.
pub fn asks_only_to_read(body: &[u8]) -> bool
    ensures { result ≡ asks_to_read (request_in body.now) }
{
    match read_request(body) {
        Some(SessionRequest::Perform(performance)) => only_reads(&performance.statement),
        Some(SessionRequest::Describe(_) | SessionRequest::Release(_)) | None => false,
    }
}
