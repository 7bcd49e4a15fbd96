//! New files that are written whole: built from records, or as the copy of a closed file.
//!
//! `FileBuilder` takes records whose prime values rise, and makes the file that adding them one after
//! another makes: heap and prime index as they come, the alternate keys sorted at the end.
//! `build_closed` does so with the records of a source and a new file of a shelf. `copy_closed` copies
//! a closed file of one shelf into a new one of another, in the order of a key, and `copy_path` by
//! paths. The gate of a new file is open until all is written, so a crash leaves what was there, a
//! refused file, or the whole one.
//!
//! Where records come from, and which words ask for a copy, is not known here. Read `Written.antt` and
//! `file_builder`; `BuiltUnit.antt` and `building`; `Copies.antt`, `Copying.antt` and `copying`.
#![tactic(auto)]

mod alternates;
mod attaching;
mod batch;
mod batch_reading;
mod batching;
mod building;
mod built_end;
mod built_file;
mod built_parts;
mod closing;
mod copied_alternates;
mod copied_entries;
mod copied_opening;
mod copied_pages;
mod copied_path;
mod copy_fault;
mod copying;
mod end;
mod entries;
mod fault;
mod file_builder;
mod file_parts;
mod filling;
mod held_entries;
mod kept_fronts;
mod leading;
mod looking;
mod moving;
mod new_place;
mod new_places;
mod opening;
mod ranked;
mod record_source;
mod records_mover;
mod row_reading;
mod rows;
mod rows_builder;
mod rows_by_key;
mod stamps;
mod value_lead;
mod walk;

pub use building::build_closed;
pub use built_end::FileBuilt;
pub use copied_path::copy_path;
pub use copying::copy_closed;
pub use end::CopyEnd;
pub use fault::{Copied, CopyingFault};
pub use file_builder::{Built, FileBuilder, Pushed};
pub use file_parts::FileParts;
pub use new_place::{NewPlace, place_of};
pub use record_source::RecordSource;
