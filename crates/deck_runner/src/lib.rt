//! The run of a deck: from its bytes to its transcript.
//!
//! `read_deck`, handed on, reads a deck; `run_deck` reads one and runs it over any library. The
//! transcript is the fold of the deck's statements up to STOP RUN over its files and length items,
//! followed by the closes of the files that are still open, in the order of their SELECT entries.
//! Each statement is what the definitions say or a step that a fault has marred, and at each moment
//! a crash leaves no false file. Memory is taken for the deck, its files, its items and the lines
//! on their way to the writer before the first statement, and by the library; for nothing else.
//!
//! Read specs/Line for a line of the transcript, specs/Run for the fold, specs/Steps and
//! specs/Stretches for a run as steps, specs/NoFalseFile for what a crash may leave,
//! specs/HeldLines and specs/Reads for the lines on their way to the writer, specs/Beginning for a
//! deck before its first statement, and then `run_deck`.
#![tactic(auto)]

mod beginning;
mod closes;
mod deck_run;
mod fault;
mod held_lines;
mod line;
mod run_end;
mod running_deck;
mod running_file;
mod running_item;
mod statements;
mod verb;
mod whole_run;

pub use deck_reader::{Deck, read_deck};
pub use deck_run::run_deck;
pub use fault::RunFault;
pub use held_lines::only_reads;
pub use line::is_plain;
pub use run_end::RunEnd;
pub use whole_run::{
    clean_fronts_are_exact, clean_runs_are_exact, images_are_of_ledger, no_false_file,
    reads_change_no_file,
};
