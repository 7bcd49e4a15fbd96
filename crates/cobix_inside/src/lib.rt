//! A session over the files of a folder, called from C.
//!
//! C holds a `Handle` for each session, and lends it with each request. The record that an answer
//! delivers is lent in turn: C reads it where it lies. C passes nothing for an allocator and for the
//! handles of the streams.
//!
//! The library is given no runtime, but it may be given the handles of the standard streams. So the
//! system is asked through two streams: a question is written to the one, and its answer is read from
//! the other. C has functions of its own in the place of `write` and `read`: they make the call that
//! is asked for, and hold its answer until it is read. What is written is the bytes of the question,
//! and what is answered is decoded exactly from the bytes that were read. Nothing is promised of the
//! system, and that each method of `AskedFile` and `AskedSystem` asks its own question is trusted.
//!
//! A request is answered as the definitions of `serve` say, and no crash leaves a false file after
//! requests that were answered since the session began. One library serves all files of a session,
//! over its folder and with its limits.
//!
//! Read `specs/Questions.antt`, then `asking`; `library`, then `exports`.
#![tactic(auto)]

mod asked_file;
mod asked_streams;
mod asked_system;
mod asking;
mod exports;
mod handle;
mod library;
mod library_limits;
mod no_folder;
mod open_session;
mod question;
mod raw_box;
mod told;

pub use asked_file::AskedFile;
pub use asked_system::AskedSystem;
pub use no_folder::NoFolder;
