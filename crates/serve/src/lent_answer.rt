//! The answer to a request, in the room that a caller has for its head.
ghost use Rattle.std.specs.Prelude.{◌≤◌, length};
ghost use types.Logic.{sem};
ghost use Rattle.serve.specs.LentAnswer.{EndsAnswering, lent_frame};

use crate::answer::put_head;
use crate::answering::{answer_by, outcome_of};
use crate::session::Session;
use crate::whole_session::{exact_in_requests, no_false_file_in_requests};
use indexed_file::GrowingLibrary;

/// The frame of an answer in two parts: so many bytes of a head, in a room, and behind them the record
/// that was delivered, of no bytes where none was. It lies in the session, which is lent with it.
#[derive(Clone, Copy, Debug)]
pub struct LentAnswer<'s> {
    pub size: usize,
    pub delivered: &'s [u8],
}

/// Does what the body of a frame asks for, puts the head of the answer's frame into the room, which
/// is long enough for any, and lends the record behind it.
pub fn answer_lent<'s, L: GrowingLibrary + Drop>(
    session: &'s mut Session<L>,
    body: &[u8],
    room: &mut [u8],
) -> LentAnswer<'s>
    requires room { 5 ≤ length room.old }
    ensures* answered { sem 𝓛 (EndsAnswering L.row L.shown L.keeps_open session.entry
        (lent_frame body.now room.old room.new result.size result.delivered.now)) }
{
    // Brings the laws that an answered request leaves no false file, and what is exact.
    no_false_file_in_requests::<L>();
    exact_in_requests::<L>();
    let outcome = outcome_of(session, body);
    let answer = answer_by(session, outcome);
    LentAnswer {
        size: put_head(room, &answer),
        delivered: answer.record(),
    }
}
