//! Requests for verbs, read from an input and answered on an output.
//!
//! A frame is two bytes of length and a body. `read_request` gives the one meaning of a body, or
//! none; `put_answer` makes the frame of an answer. All numbers are big-endian.
//!
//! A request is answered when its verb was performed. The answers to READ and START are held while
//! the next request has come already; all others are written before the next one is read. At the
//! end of the input the files that are still open are closed, in the order of opening.
//!
//! A session has one library, and up to 64 described files, by number. A request that is refused
//! changes nothing. At each moment a crash leaves no false file, as in the run of a deck. Without a
//! fault a session is exact, as such a run is.
//!
//! Read `specs/Request.antt`, `specs/Reading.antt` and `specs/Answer.antt` for the frames;
//! `specs/Files.antt` and `session`; `specs/Serving.antt`, then `held_answers` and `serving`;
//! `specs/NoFalseFile.antt` and `specs/ExactSession.antt` for what a crash may leave and what is exact.
#![tactic(auto)]

mod answer;
mod answering;
mod closing;
mod described_file;
mod describing;
mod end;
mod fault;
mod file_description;
mod frame;
mod held_answers;
mod input;
mod laws;
mod lent_answer;
mod opening_order;
mod output;
mod performing;
mod place;
mod reads;
mod request;
mod request_refusal;
mod serving;
mod session;
mod statement;
mod whole_session;

pub use answer::{ANSWER_LIMIT, HEAD_LIMIT, SessionAnswer, put_answer};
pub use answering::answer_request;
pub use end::SessionEnd;
pub use fault::ServeFault;
pub use file_description::{FileDescription, read_description};
pub use input::{InputFailed, Next, read_frame};
pub use laws::what_is_written_is_read;
pub use lent_answer::{LentAnswer, answer_lent};
pub use request::{LENGTH_LIMIT, SessionRequest, read_request};
pub use request_refusal::RequestRefusal;
pub use serving::{close_all, serve};
pub use session::{FreePlaces, Session};
pub use statement::{Performance, read_performance};
pub use whole_session::{
    exact_in_requests, exact_session, no_false_file, no_false_file_in_requests,
};
