//! Shelves over the files of a system, whose every call is noted with its answer.
//!
//! Nothing can be proved of what a system answers. So a `System` keeps a record, which no memory
//! holds, of all calls that were made, in order. `RecordedSystem` has the runtime, and gives it to
//! nobody; that each of its methods makes the calls that it notes is trusted. A unit of a
//! `FolderShelf` is the file of that name in a folder; a `PathShelf` has one file, that of a path,
//! and never writes it. What they show is read off the record: what an honest disk would hold after
//! these calls. The clauses of `Shelf` speak of the runs in which each answer was that of such a disk.
//!
//! A shelf holds the system, and gives it back. That nobody else writes the files is trusted. Read
//! `specs/Calls.antt`, then `system`; `specs/Replay.antt`, then `FolderShelf`; `specs/Answers.antt`.
#![tactic(auto)]

mod call_record;
mod disk;
mod folder_shelf;
mod laws;
mod path_shelf;
mod recorded_system;
mod shared_file;
mod standard_streams;
mod system;
mod unit;
mod unread;

pub use call_record::CallRecord;
pub use disk::{Disk, EmptyDisk};
pub use folder_shelf::FolderShelf;
pub use laws::folder_laws;
pub use path_shelf::PathShelf;
pub use recorded_system::RecordedSystem;
pub use standard_streams::{HoldsStreams, StreamFault};
pub use system::System;
pub use unread::Unread;
