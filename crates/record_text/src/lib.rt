//! The line of a record, as text, as CSV and as JSON: written, and read again.
//!
//! A record has columns, each with a name and a place: between cuts, or its elementary items. Every
//! line is printable ASCII, with other bytes as the transcript of a run shows them. `append_header`
//! adds what stands before the first line, which is the names of the columns in CSV. `line_room`
//! sets memory aside in which no line wants more. `record_or_mistake` reads a line into a record area
//! where it is exactly that of a record, or answers a mistake that it has, and where. Nothing is
//! guessed, and nothing is allocated for it. `padded_or_mistake` fills up each value that is shorter than
//! its column: with spaces behind it, or with zeros before its digits.
//!
//! Read `specs/Columns.antt` for values, `specs/Csv.antt`, `specs/Json.antt`, `specs/Lines.antt` and
//! `line`; then `specs/ReadLine.antt`, `specs/Quoted.antt`, `specs/Mistake.antt` and `line_reading`;
//! `specs/Padded.antt` and `padded_line` for values that are filled up.
#![tactic(auto)]

mod cell;
mod column;
mod counted;
mod csv;
mod cuts;
mod form;
mod header;
mod items;
mod json;
mod line;
mod line_reading;
mod mistake;
mod name;
mod numbered;
mod padded_line;
mod padded_value;
mod padded_values;
mod passed;
mod quoted;
mod short;
mod shown;
mod shown_byte;
mod text;
mod text_reading;
mod value;
mod values;
mod whole;

pub use column::Column;
pub use cuts::{CutFault, cut_columns, whole_column};
pub use form::Form;
pub use header::{behind_header, header_lines};
pub use items::{elementary_items, item_columns};
pub use line::{append_header, append_line, line_room};
pub use line_reading::{RecordLine, read_record, record_or_mistake};
pub use mistake::{ColumnMistake, LineMistake, Stray, ValueMistake};
pub use padded_line::padded_or_mistake;
pub use padded_value::padded_by_move;
pub use whole::items_are_whole;
