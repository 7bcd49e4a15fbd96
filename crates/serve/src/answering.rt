//! The answer to a request.
ghost use Rattle.std.specs.Prelude.{◌≡◌, ◌≤◌, take, length};
ghost use Rattle.serve.specs.Request.{described_of, performed_of};
ghost use Rattle.serve.specs.Reading.{request_in};
ghost use Rattle.serve.specs.Answer.{KeepsBehind, record_told, told_of};
ghost use Rattle.serve.specs.Answers.{AnswersDescription, AnswersVerb, AnswersRelease};
ghost use Rattle.serve.specs.Answers.{AnswersRequest, TellsAnswer, told_by};

use crate::answer::{SessionAnswer, put_answer};
use crate::file_description::FileDescription;
use crate::request::{SessionRequest, read_request};
use crate::request_refusal::RequestRefusal;
use crate::session::Session;
use crate::statement::Performance;
use indexed_file::GrowingLibrary;
use io_state::Status;

/// What came of a request.
#[derive(Clone, Copy, Debug)]
pub(crate) enum Outcome {
    Refused(RequestRefusal),
    /// The file is described, or released.
    Done,
    /// The verb was performed. The record that it delivered has this length in the area of the file;
    /// no length where it delivered none.
    Performed {
        status: Status,
        file: u8,
        length: Option<u16>,
    },
}

/// Describes a file.
fn describe<L: GrowingLibrary + Drop>(
    session: &mut Session<L>,
    description: &FileDescription<'_>,
) -> Outcome
    ensures { AnswersDescription L.shown L.keeps_open (described_of description.now)
        session.old (told_by session.new.table result) session.new }
{
    match session.describe(description) {
        Ok(()) => Outcome::Done,
        Err(refusal) => Outcome::Refused(refusal),
    }
}

/// Performs a verb.
fn perform<L: GrowingLibrary + Drop>(
    session: &mut Session<L>,
    performance: &Performance<'_>,
) -> Outcome
    ensures { AnswersVerb L.shown (performed_of performance.now)
        session.old (told_by session.new.table result) session.new }
{
    match session.perform(performance) {
        Ok(answer) => Outcome::Performed {
            status: answer.status,
            file: performance.file,
            length: answer.length,
        },
        Err(refusal) => Outcome::Refused(refusal),
    }
}

/// Gives up a file.
fn release<L: GrowingLibrary + Drop>(session: &mut Session<L>, number: u8) -> Outcome
    ensures { AnswersRelease L.shown L.keeps_open number
        session.old (told_by session.new.table result) session.new }
{
    match session.release(number) {
        Ok(()) => Outcome::Done,
        Err(refusal) => Outcome::Refused(refusal),
    }
}

/// Does what the body of a frame asks for.
pub(crate) fn outcome_of<L: GrowingLibrary + Drop>(session: &mut Session<L>, body: &[u8]) -> Outcome
    ensures { AnswersRequest L.shown L.keeps_open (request_in body.now)
        session.old (told_by session.new.table result) session.new }
{
    match read_request(body) {
        Some(SessionRequest::Describe(description)) => describe(session, &description),
        Some(SessionRequest::Perform(performance)) => perform(session, &performance),
        Some(SessionRequest::Release(number)) => release(session, number),
        None => Outcome::Refused(RequestRefusal::NoRequest),
    }
}

/// The answer that tells what came of a request, with the record where it lies in the session.
pub(crate) fn answer_by<L: GrowingLibrary + Drop>(
    session: &Session<L>,
    outcome: Outcome,
) -> SessionAnswer<'_>
    ensures told { told_of result ≡ told_by session.now.table outcome }
    ensures short { length (record_told result) ≤ 4000 }
{
    match outcome {
        Outcome::Refused(refusal) => SessionAnswer::Refused(refusal),
        Outcome::Done => SessionAnswer::Done,
        Outcome::Performed {
            status,
            file,
            length,
        } => SessionAnswer::Performed {
            status,
            bytes: session.record(file, length),
        },
    }
}

/// Does what the body of a frame asks for, and puts the frame of the answer into the beginning of
/// the room, which is long enough for any. How many bytes the frame has.
pub fn answer_request<L: GrowingLibrary + Drop>(
    session: &mut Session<L>,
    body: &[u8],
    room: &mut [u8],
) -> usize
    requires room { 4005 ≤ length room.old }
    ensures frame { TellsAnswer L.shown L.keeps_open body.now
        session.old session.new (take result room.new) }
    ensures rest { KeepsBehind result room.old room.new }
{
    let outcome = outcome_of(session, body);
    put_answer(room, &answer_by(session, outcome))
}
