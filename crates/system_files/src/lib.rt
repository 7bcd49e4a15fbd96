//! The calls of the system on files and on the folder that holds them, each made again where a
//! signal interrupts it, and the locks of open files.
//!
//! Reads and writes go on until all bytes came or were taken; the thousandth interrupted call in a
//! row is told as one that failed. A file is read under a shared lock and written under an
//! exclusive one, and a lock that another run has is waited for, for as long as is asked. Nothing is
//! promised of the system's answers, and that each function makes the calls that its name says is
//! trusted.
//!
//! Read `calls` and `locks`, then `kept_file`.
#![tactic(auto)]

mod appearance;
mod calls;
mod cause;
mod folder_lock;
mod front;
mod kept_file;
mod kept_folder;
mod lines;
mod lock_wait;
mod locks;
mod opening;

pub use calls::{Written, is_folder, look, measure, read, sync, write};
pub use cause::Cause;
pub use front::{ReadFault, read_front};
pub use kept_file::KeptFile;
pub use kept_folder::KeptFolder;
pub use lines::{Lines, read_lines};
pub use lock_wait::LockWait;
pub use locks::{LockFile, share};
pub use opening::{make, open, open_shared, open_to_read};
