//! The list of the records of a file, a line each, in the order of a key.
//!
//! `list_records` opens the file of a name in a library, writes the line of each record within the
//! bounds, and closes the file. Where the library is honest and what it shows of the name is true,
//! the lines are exactly those of the rows of the file within the bounds, in rising order of value
//! and stamp, as many as are asked for.
//!
//! `list_file` checks the bytes of a file first, whoever wrote them, and lists only a file that is
//! sound; `list_file_as` does so in another form. The bytes are read once, before the first line, so
//! nothing holds the file while its lines are read by another program. `list_shelf` lists the file of
//! a shelf as it is read, and checks nothing first. `list_at_path` does so of the file of a path, page
//! after page by a system, under a shared lock.
//!
//! Read `specs/Listed.antt` for the rows, `specs/Condition.antt` for conditions on them,
//! `specs/Lines.antt` for the lines, `specs/Listing.antt` for what is promised, and then `listing`;
//! `specs/FileList.antt` and `file_list`; `specs/ByPath.antt` and `path_list`.
#![tactic(auto)]

mod asked;
mod checked_list;
mod condition;
mod end;
mod file_bytes;
mod file_list;
mod listing;
mod next;
mod path_list;
mod rows;
mod shelf_list;

pub use asked::Asked;
pub use checked_list::list_checked_shelf;
pub use condition::{Condition, Operator};
pub use end::{ListEnd, ListFault};
pub use file_list::{FileList, list_file, list_file_as, list_sound};
pub use listing::list_records;
pub use path_list::list_at_path;
pub use shelf_list::list_shelf;
