//! Tests of files on a shelf and of their pages: each call of a device may fail once or for good, and a
//! crash may stop it.
//!
//! What a clause says is proved and not tested again. Here files are made, changed and stopped at each
//! call in turn, and what they are found to be afterwards is looked at, page by page.
//!
//! Read `files` for a file and its gate, `folders` for files in a folder of the system, `held_files`
//! for those of two runs at once, `waiting` for their locks and `system_calls` for its calls, then
//! `paged_files` for the pages that the cache holds and those that are free.
#![tactic(auto)]

#[cfg(test)]
mod checks;
#[cfg(test)]
mod files;
#[cfg(test)]
mod folders;
#[cfg(test)]
mod held_files;
#[cfg(test)]
mod paged_files;
#[cfg(test)]
mod refusing_system;
#[cfg(test)]
mod shelves;
#[cfg(test)]
mod system_calls;
#[cfg(test)]
mod waiting;
