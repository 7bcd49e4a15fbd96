//! A request: which one a frame is.
ghost use Rattle.std.specs.Prelude.{◌≡◌, option_map};
ghost use Rattle.serve.specs.Request.{asked_of};
ghost use Rattle.serve.specs.Reading.{request_in};

use crate::file_description::{FileDescription, read_description};
use crate::statement::{Performance, read_performance};

/// The most bytes of a request's body.
pub const LENGTH_LIMIT: usize = 8192;

/// What is asked for.
#[derive(Drop)]
pub enum SessionRequest<'a> {
    /// A number for a file.
    Describe(FileDescription<'a>),
    /// A verb.
    Perform(Performance<'a>),
    /// The file of a number is given up.
    Release(u8),
}

/// What a frame without the two bytes of its length asks for. None where it is the frame of no request.
pub fn read_request(body: &[u8]) -> Option<SessionRequest<'_>>
    ensures { option_map asked_of result ≡ request_in body.now }
{
    match body {
        [1, ..] => Some(SessionRequest::Describe(read_description(body)?)),
        [2, ..] => Some(SessionRequest::Perform(read_performance(body)?)),
        [3, file] => Some(SessionRequest::Release(*file)),
        _ => None,
    }
}
