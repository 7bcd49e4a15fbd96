//! The requests of a session, one after another.
ghost use Rattle.std.specs.Prelude.{◌≡◌, ◌≤◌, [], Err};
ghost use Rattle.serve.specs.Serving.{ServesInput, ClosesAndCounts, ServesAll, failed_of};
ghost use Rattle.serve.specs.Answering.{outgoing, AnswersRead, AnswersOther, AnswersOne, Finishes};
ghost use Rattle.serve.specs.Answering.{RefusesLength};

use crate::answer::{ANSWER_LIMIT, SessionAnswer, put_answer};
use crate::answering::answer_request;
use crate::end::SessionEnd;
use crate::fault::ServeFault;
use crate::held_answers::{make_way, send_held};
use crate::input::{Next, read_frame};
use crate::output::send_frames;
use crate::reads::asks_only_to_read;
use crate::request::LENGTH_LIMIT;
use crate::request_refusal::RequestRefusal;
use crate::session::{FreePlaces, Session};
use indexed_file::GrowingLibrary;
use io_state::Status;
use std::alloc::Global;
use std::io::{Read, Write};
use streams::{HeldText, ReadsAhead, Refused, StandardInput};

/// Answers a request that only reads. The answer is held.
fn answer_read<L: GrowingLibrary + Drop, W: Write>(
    session: &mut Session<L>,
    body: &[u8],
    held: &mut HeldText,
    out: &mut W,
) -> Result<(), Refused>
    ensures { AnswersRead L.shown L.keeps_open W.contents body.now
        session.old session.new held.old held.new out.old out.new result }
{
    let mut room = [0; ANSWER_LIMIT];
    let size = answer_request(session, body, &mut room);
    held.add(&room[..size], out)
}

/// Answers another request. All that is held is handed to the writer before it is performed, and
/// its own answer at once.
fn answer_other<L: GrowingLibrary + Drop, W: Write>(
    session: &mut Session<L>,
    body: &[u8],
    held: &mut HeldText,
    out: &mut W,
) -> Result<(), Refused>
    ensures { AnswersOther L.shown L.keeps_open W.contents body.now
        session.old session.new held.old held.new out.old out.new result }
{
    send_held(held, out)?;
    let mut room = [0; ANSWER_LIMIT];
    let size = answer_request(session, body, &mut room);
    send_frames(out, &room[..size])
}

/// Answers a request.
fn answer<L: GrowingLibrary + Drop, W: Write>(
    session: &mut Session<L>,
    body: &[u8],
    held: &mut HeldText,
    out: &mut W,
) -> Result<(), Refused>
    ensures { AnswersOne L.shown L.keeps_open W.contents body.now
        session.old session.new held.old held.new out.old out.new result }
{
    if asks_only_to_read(body) {
        answer_read(session, body, held, out)
    } else {
        answer_other(session, body, held, out)
    }
}

/// Refuses a length past the limit, behind all that is held.
fn refuse_length<W: Write>(held: &mut HeldText, out: &mut W) -> Result<(), ServeFault>
    ensures { RefusesLength (W.contents out.old) (W.contents out.new) held.old result }
{
    let Ok(()) = send_held(held, out) else {
        return Err(ServeFault::Output);
    };
    let mut room = [0; ANSWER_LIMIT];
    let size = put_answer(&mut room, &SessionAnswer::Refused(RequestRefusal::TooLong));
    match send_frames(out, &room[..size]) {
        Ok(()) => Ok(()),
        Err(_) => Err(ServeFault::Output),
    }
}

/// Hands all that is held to the writer where the requests end.
fn finish<W: Write>(
    end: Result<(), ServeFault>,
    held: &mut HeldText,
    out: &mut W,
) -> Result<(), ServeFault>
    ensures { Finishes end (outgoing (W.contents out.old) (W.contents out.new) held.old held.new) result }
{
    match send_held(held, out) {
        Ok(()) => end,
        Err(_) => Err(ServeFault::Output),
    }
}

/// Answers requests until there is none. Before it waits for one, all that is held is handed to the writer.
fn answer_all<L: GrowingLibrary + Drop, R: Read + ReadsAhead, W: Write>(
    session: &mut Session<L>,
    input: &mut StandardInput<R>,
    held: &mut HeldText,
    out: &mut W,
) -> Result<(), ServeFault>
    requires none_held { held.old ≡ [] }
    ensures { ServesInput L.shown L.keeps_open R.remaining W.contents
        input.old input.new out.old out.new session.old session.new result }
{
    let mut buffer = [0; LENGTH_LIMIT];
    for _ in 0..u64::MAX {
        let Ok(()) = make_way(held, input.ahead(), out) else {
            return Err(ServeFault::Output);
        };
        let size = match read_frame(input, &mut buffer, held) {
            Ok(Next::Frame(size)) => size,
            Ok(Next::TooLong) => return refuse_length(held, out),
            Ok(Next::End) => return finish(Ok(()), held, out),
            Err(_) => return finish(Err(ServeFault::Input), held, out),
        };
        let Ok(()) = answer(session, &buffer[..size], held, out) else {
            return Err(ServeFault::Output);
        };
    }
    finish(Err(ServeFault::Input), held, out)
}

/// 1 for a close that failed: that was answered another status than 00.
fn failed_in(closed: Option<Status>) -> usize
    ensures told { result ≡ failed_of closed }
    ensures one { result ≤ 1 }
{
    match closed {
        None | Some(Status::Successful) => 0,
        Some(_) => 1,
    }
}

/// Closes the files that are open, in the order of opening. How many of the closes failed.
pub fn close_all<L: GrowingLibrary + Drop>(session: &mut Session<L>) -> usize
    ensures none_open { session.new.table.opened ≡ [] }
    ensures closed { ClosesAndCounts L.shown session.old session.new result }
{
    let mut failed = 0;
    for _ in 0..session.open_count() {
        failed += failed_in(session.close_first());
    }
    failed
}

/// The end of a session that memory was refused for.
fn refused<L: Drop>(library: L) -> SessionEnd<L>
    ensures { result ≡ record { library = library; requests = Err ServeFault.Memory; unclosed = 0 } }
{
    SessionEnd {
        library,
        requests: Err(ServeFault::Memory),
        unclosed: 0,
    }
}

/// Answers the requests of an input over a library without units, and closes the files that are open
/// then, in the order of opening. The answers to requests that only read are held while the next
/// request has come, and all of them are written before a request is performed that may change a
/// file. The library is given back, and it is told how many of the closes at the end failed.
///
/// The input ends, or a length past the limit is refused, and nothing behind it is read. `Input`: a
/// read failed, or 2^64 - 1 requests were answered. `Output`: the writer refused an answer.
/// `Memory`: memory was wanted before the first request, and nothing was read or written.
pub fn serve<L: GrowingLibrary + Drop, R: Read + ReadsAhead, W: Write>(
    alloc: Global,
    library: L,
    input: &mut StandardInput<R>,
    out: &mut W,
) -> SessionEnd<L>
    requires units { (L.shown.world library).units ≡ [] }
    ensures served { ServesAll L.shown L.keeps_open R.remaining W.contents
        input.old input.new out.old out.new library result }
    ensures memory { result.requests ≡ Err ServeFault.Memory
        → (input.new ≡ input.old) × (out.new ≡ out.old) × (result.library ≡ library) }
{
    let Ok(places) = FreePlaces::new(alloc) else {
        return refused(library);
    };
    let Ok(mut held) = HeldText::new(alloc) else {
        return refused(library);
    };
    let mut session = Session::new(alloc, library, places);
    let requests = answer_all(&mut session, input, &mut held, out);
    let unclosed = close_all(&mut session);
    SessionEnd {
        library: session.into_library(),
        requests,
        unclosed,
    }
}
