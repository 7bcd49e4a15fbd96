//! A deck as a COBOL program, which performs the same verbs on the same files and displays the transcript.
//!
//! `write_program` answers a text exactly where the bytes are a deck, and no line of it is past
//! column 72. What a compiler makes of the text is tested.
//!
//! Each verb is a paragraph `VERB-n` of its own, where n is its line in the transcript. What MOVE
//! and READ put into a record area is kept in storage of the program, and given to the file's own
//! area before a verb that needs it: after WRITE, and after a READ that failed, the standard leaves
//! that area undefined.
//!
//! Read `program` for the order of the parts, `lines` for the layout, and then `verbs`.
#![tactic(auto)]

mod data_files;
mod form;
mod lines;
mod literal;
mod moves;
mod paragraphs;
mod procedure;
mod program;
mod records;
mod selects;
mod storage;
mod verbs;

pub use form::SourceForm;
pub use program::write_program;
