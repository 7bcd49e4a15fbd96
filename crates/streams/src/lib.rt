//! Text that goes in and out: written whole or held back, standard input and output with a record
//! of what they were asked and what they answered, how far a command is, and texts in UTF-8.
//!
//! Nothing can be proved of what a system gives to a reader or does with what it is given. So each
//! read and each write is noted in a record that no memory holds. Each that is noted is asked of the
//! stream below, and no other, which is a clause over any stream. Nothing is promised of what is
//! shown of the progress of a command.
//!
//! A list in ASCII has an escape for each byte that is no printable character of ASCII. In UTF-8 the
//! escape of a byte from a0 to ff is the character that the byte is in ISO 8859-1. `in_utf_8` makes such
//! a text of a list. `in_ascii` makes a list of such a text: what was listed comes back exactly, and
//! what is no such character stays as it is, so that its line is the line of no record. `ForeignLines`
//! tells what that is.
//!
//! Read `specs/Output.antt` and `held_text`; `specs/Reads.antt` and `standard_input`;
//! `specs/Writes.antt` and `standard_output`; then `progress`. Of UTF-8 read `specs/Characters.antt`,
//! `specs/Escapes.antt`, `specs/InUtf8.antt` and `specs/InAscii.antt`; `specs/Laws.antt` says how they
//! belong together.
#![tactic(auto)]

mod backslashes;
mod escape;
mod fault_lines;
mod foreign;
mod held_text;
mod hex;
mod laws;
mod line;
mod line_ends;
mod output;
mod progress;
mod progress_reader;
mod read_record;
mod reads_ahead;
mod standard_input;
mod standard_output;
mod terminal_line;
mod to_ascii;
mod to_utf_8;
mod write_record;

pub use backslashes::Backslashes;
pub use fault_lines::{FaultLine, FaultLines};
pub use foreign::{Foreign, ForeignLines};
pub use held_text::HeldText;
pub use hex::{hex_digit, hex_number};
pub use laws::{each_escape, only_characters, read_back};
pub use line_ends::LineEnds;
pub use output::{Refused, write_text};
pub use progress::{Progress, Silent};
pub use progress_reader::ProgressReader;
pub use reads_ahead::ReadsAhead;
pub use standard_input::StandardInput;
pub use standard_output::StandardOutput;
pub use terminal_line::TerminalLine;
pub use to_ascii::in_ascii;
pub use to_utf_8::in_utf_8;
