//! What the program does with the words of its command line: it runs a deck over the files of a
//! folder, answers requests over them, loads a text into one, copies a file, explains what was told,
//! gives help, or does what `file_commands` has, and answers the exit status.
//!
//! `program` does what the words ask for, writes to standard output, and tells a fault on another
//! writer. Its clauses say which words lead to what, what standard output took, and that the exit
//! status is that of what happened. `write_transcript` carries the theorem of a run, and
//! `serve_folder` that of a session. The text of help is shown by runs of the program, and that the
//! system opens the folder that a path names is trusted.
//!
//! Read `performing` first, then `transcript`, which runs the bytes of a deck, and `session`. What is
//! told behind the first line on standard error stands in `causes` and `missed`; no clause speaks of it.
#![tactic(auto)]

mod causes;
mod copying;
mod devices;
mod done;
mod encoded_list;
mod encoded_text;
mod encoding;
mod explaining;
mod foreign_lines;
mod handing_over;
mod kept_rejects;
mod load_form;
mod loading;
mod missed;
mod performing;
mod session;
mod standard_streams;
mod told_load;
mod transcript;

pub use devices::{Over, Seen};
pub use explaining::every_reason_is_explained;
pub use performing::program;
pub use session::{ServedEnd, serve_folder};
pub use transcript::write_transcript;
