//! A whole session.
ghost use Rattle.serve.specs.ExactSession.{ExactInRequests, ExactSession};
ghost use Rattle.serve.specs.NoFalseFile.{NoFalseFileInSession, NoFalseFileInRequests};

use indexed_file::GrowingLibrary;

/// In every session, however it ended: from its first request to the end, each image that a crash
/// may leave of a name at any moment is one that the ledger of the name has. So it is in the run of
/// a deck, and requests are in the place of statements. One library has all files, through
/// descriptions and releases, so the only premises are those at the start. Where all images of a
/// name really were absent, closed or refused then, all have been so since.
pub fn no_false_file<L: GrowingLibrary + Drop>()
    ensures { NoFalseFileInSession L.shown L.keeps_open }
{}

/// The same of requests that come one at a time, by whatever way: before the first one, and behind
/// each that is answered as `answer_request` does it, the session has had no false file, and has
/// none while its open files are closed as by `close_all`.
pub fn no_false_file_in_requests<L: GrowingLibrary + Drop>()
    ensures { NoFalseFileInRequests L.shown L.keeps_open }
{}

/// Requests that come one at a time, by whatever way, over a library that had no unit at first: before
/// the first one, and behind each that is answered as `answer_request` does it, this is so of the
/// session. Where no answer has told of a fault (no verb was answered 24, 30, 90 or 92, only OPEN was
/// answered 91, and no description was refused for want of memory), where the library has not lied by
/// then, and what it showed at first of the names that are described was true: all answers are exactly
/// what the definitions give for the requests in order, from the files that the library had first,
/// through descriptions and releases, and the session stands for what they leave. So it is, too, of the
/// closes of its open files, then.
pub fn exact_in_requests<L: GrowingLibrary + Drop>()
    ensures { ExactInRequests L.shown L.keeps_open }
{}

/// The same of a whole session, however it ended: it is so of its requests, and where no close at its
/// end has told of a fault, of these, too; its library has the files that they leave.
pub fn exact_session<L: GrowingLibrary + Drop>()
    ensures { ExactSession L.shown L.keeps_open }
{}
