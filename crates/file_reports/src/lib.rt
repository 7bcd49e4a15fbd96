//! What is told of a file: its schema, and counts of its pages.
//!
//! The schema says how long its records are, its keys, and what its first page counts. Only the first
//! page is read. What the lines say is what that page says; whether the rest of the file agrees with
//! it is for a check to find. The schema may also be held against that of a deck: `compare_schema`
//! writes a line for each difference, and none exactly where OPEN would find the two the same.
//!
//! `list_statistics` checks the file of a unit of a shelf, and then writes how many pages there are of
//! each kind, how many slots the heap has, how full the levels of the trees are, and how many records
//! have one value of a key at most. Its pages are read when they are wanted. What the numbers count is
//! the file that its bytes stand for. Of a file that is not sound nothing is written, and the reason of
//! the check is answered, and its place.
//!
//! Read `specs/SchemaLines.antt`, then `schema_listing`; `specs/Differences.antt`, then `comparing`;
//! `specs/Statistics.antt` and `specs/StatisticsLines.antt`, then `statistics_listing`.
#![tactic(auto)]

mod comparing;
mod counting;
mod differences;
mod first_page;
mod schema_listing;
mod schema_text;
mod statistics;
mod statistics_lines;
mod statistics_listing;

pub use comparing::{Comparison, compare_schema};
pub use differences::difference_lines;
pub use first_page::Refusal;
pub use schema_listing::{ListingFault, list_schema};
pub use schema_text::schema_lines;
pub use statistics::{FileStatistics, KeyStatistics};
pub use statistics_listing::{FileStatisticsEnd, StatisticsFault, list_statistics};
