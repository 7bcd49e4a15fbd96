//! The run of a deck, and sessions of requests, over the files of a shelf.
//!
//! `run_on_shelf` joins the run of a deck to the library of files in pages. Its clauses `exact` and
//! `sound` speak of the files of the shelf alone: what a read gives of them before the run and after
//! it, and what a crash may leave of them in between. `history_laws` are of runs one after another.
//!
//! `exact_on_shelf` has the law of exact sessions, of `serve`, said of the files of the shelf alone:
//! what a read gives of them before the first request, and after the last one or the closes at the
//! end. It is so of a whole session, and of requests that come one at a time.
//!
//! Read `specs/Files.antt`, `specs/ExactRun.antt` and `specs/ShelfRun.antt`, and then
//! `specs/Histories.antt`; `specs/SessionOnShelf.antt`.
#![tactic(auto)]

mod histories;
mod sessions;
mod shelf_run;

pub use histories::history_laws;
pub use sessions::exact_on_shelf;
pub use shelf_run::run_on_shelf;
