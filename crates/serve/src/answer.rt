//! The answer to a request.
//!
//! | Bytes | Content |
//! |---|---|
//! | 0 to 1 | length of the rest |
//! | 2 | 0 refused, 1 described or released, 2 performed |
//! | 3 | refused: why |
//! | 3 to 4 | performed: the status |
//! | 5 to the end | performed: the record that was delivered, if one was |
//!
//! What stands before the record is the head of a frame.
ghost use Rattle.std.specs.Prelude.{◌≡◌, ◌+◌, ◌≤◌, ◌++◌, take, drop, length};
ghost use Rattle.byteorder.specs.Endian.{big_bytes};
ghost use Rattle.serve.specs.Answer.{told_of, answer_body, framed, record_told};
ghost use Rattle.serve.specs.Answer.{KeepsBehind};

use crate::request_refusal::RequestRefusal;
use byteorder::{BigEndian, ByteOrder};
use io_state::Status;

/// The most bytes of an answer's frame: five, and the longest record.
pub const ANSWER_LIMIT: usize = 4005;

/// The most bytes of a head: it is all of a frame but the record.
pub const HEAD_LIMIT: usize = 5;

/// What a request is answered by.
#[derive(Clone, Copy, Debug)]
pub enum SessionAnswer<'a> {
    Refused(RequestRefusal),
    /// The file is described, or released.
    Done,
    /// The verb was performed. There are no bytes of a record where none was delivered.
    Performed { status: Status, bytes: &'a [u8] },
}

impl<'a> SessionAnswer<'a> {
    /// The record that is told, of no bytes where none is.
    pub(crate) fn record(&self) -> &'a [u8]
        ensures { result.now ≡ record_told self.now }
    {
        match *self {
            SessionAnswer::Refused(_) | SessionAnswer::Done => &[],
            SessionAnswer::Performed { bytes, .. } => bytes,
        }
    }
}

/// Puts bytes into the room, from this place on. Where they end.
fn put(room: &mut [u8], at: usize, bytes: &[u8]) -> usize
    requires room { at + length bytes.now ≤ length room.old }
    ensures put { room.new ≡ take at room.old ++ bytes.now ++ drop result room.old }
    ensures end { result ≡ at + length bytes.now }
{
    let end = at + bytes.len();
    room[at..end].copy_from_slice(bytes);
    end
}

/// Begins a frame: the length of its body, and the first bytes of that. Where they end.
fn begin(room: &mut [u8], size: u16, first: &[u8]) -> usize
    requires room { 2 + length first.now ≤ length room.old }
    ensures put { room.new ≡ (big_bytes 2 size ++ first.now) ++ drop result room.old }
    ensures end { result ≡ 2 + length first.now }
{
    let mut head = [0; 2];
    BigEndian::write_u16(&mut head, size);
    let at = put(room, 0, &head);
    put(room, at, first)
}

/// Puts the head of an answer's frame into the beginning of the room, which is long enough for any.
/// How many bytes the head has.
pub(crate) fn put_head(room: &mut [u8], answer: &SessionAnswer<'_>) -> usize
    requires room { 5 ≤ length room.old }
    requires record { length (record_told answer.now) ≤ 4000 }
    ensures frame { take result room.new ++ record_told answer.now ≡ framed (answer_body (told_of answer.now)) }
    ensures rest { KeepsBehind result room.old room.new }
    ensures limit { result ≤ 5 }
{
    match *answer {
        SessionAnswer::Refused(refusal) => begin(room, 2, &[0, refusal.code()]),
        SessionAnswer::Done => begin(room, 1, &[1]),
        SessionAnswer::Performed { status, bytes } => {
            let digits = status.digits();
            begin(room, 3 + bytes.len() as u16, &[2, digits[0], digits[1]])
        }
    }
}

/// Puts the frame of an answer into the beginning of the room, which is long enough for any. How
/// many bytes the frame has.
pub fn put_answer(room: &mut [u8], answer: &SessionAnswer<'_>) -> usize
    requires room { 4005 ≤ length room.old }
    requires record { length (record_told answer.now) ≤ 4000 }
    ensures frame { take result room.new ≡ framed (answer_body (told_of answer.now)) }
    ensures rest { KeepsBehind result room.old room.new }
{
    let head = put_head(room, answer);
    put(room, head, answer.record())
}
