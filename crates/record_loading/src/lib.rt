//! The records of a text, a line each, written into a file; and what is told of rejected lines.
//!
//! `load_records` opens the file of a name in a library, writes the record of each line, and closes
//! the file. The text is what `record_listing` writes, in one of its forms. The first line that is
//! the line of no record of the file, or whose WRITE is refused, ends it: what was written before
//! stays. By its options a load skips the first lines, and goes on after such a line: it is told, and
//! passed over. Or a record whose WRITE is refused for its keys takes, by a REWRITE, the place of the one
//! of its prime value. Where the library is honest and what it shows of the name is true, the file is left
//! as the definitions of OPEN, WRITE, REWRITE and CLOSE leave it.
//!
//! `load_lines_on_shelf` joins this to the library of files in pages, and `load_on_shelf` is the same where no
//! line is skipped, and the first that is rejected ends the load. A new file is made only where its name
//! has none: a load never replaces a file. It is built from the lines where their records rise, and else
//! written record by record: what is told and left is the same. What is promised is said of the files of
//! the shelf alone: what a read gives of them before the load and after it, and what a crash may leave of
//! them in between. `add_answer` makes the lines that tell of a load, and `write_mistake` the line that
//! tells what is wrong with a line that is no record's.
//!
//! `RejectedLines` is the log of a load: it writes what is told of a line to one writer, as far as that
//! takes it, and the bytes of the line into a file, if one is asked for. The file is made new, and what
//! stands there already is never opened. Its clauses say what the file took, as its writes were answered:
//! the bytes of each line, in their order; or that a write was refused, after which nothing more is
//! written. That the system makes a new file, and keeps what it took, is trusted. `load_keeping` joins
//! this to the load of a text over a shelf.
//!
//! `sorted_text` sorts the lines of a text by the values of their records in the prime key.
//!
//! Read `record_text` for a line, `specs/Passing.antt` for what comes of a line, `specs/Loading.antt`
//! for what is promised, and then `loading`; `specs/Loaded.antt`, `specs/Answer.antt` and `shelf_load`
//! for files of a shelf; `specs/BuiltLoad.antt`, `specs/LineRecords.antt`, then `built_load` and
//! `line_records`; `specs/SortedText.antt`, then `sorting`; `specs/Kept.antt`, then `keeping`,
//! `rejected_lines` and `kept_load`.
#![tactic(auto)]

mod answer;
mod built_load;
mod end;
mod given_records;
mod keeping;
mod kept_load;
mod line_file;
mod line_records;
mod loading;
mod mistake_line;
mod new_file;
mod options;
mod passing;
mod reading;
mod rejected;
mod rejected_lines;
mod shelf_end;
mod shelf_load;
mod sorting;
mod telling;
mod writing;

pub use answer::{add_answer, add_rejected_line, is_loaded};
pub use end::{LinesEnd, Load, LoadEnd, LoadFault};
pub use keeping::KeepsLines;
pub use kept_load::load_keeping;
pub use loading::load_records;
pub use mistake_line::{write_end_mistake, write_mistake};
pub use options::LoadOptions;
pub use rejected::{RejectLog, RejectReason, RejectedLine};
pub use rejected_lines::RejectedLines;
pub use shelf_end::{ShelfEnd, ShelfFault, is_compared};
pub use shelf_load::{load_lines_on_shelf, load_on_shelf};
pub use sorting::sorted_text;
