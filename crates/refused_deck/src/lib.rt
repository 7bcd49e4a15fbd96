//! A deck that is refused: its bytes, and what of it was read.
//!
//! What the deck describes is read by the reader of decks itself, as far as that goes. A word of an
//! entry is found by the periods with which entries end. Nothing is proved of these but that they
//! are safe, and nothing is decided by them.
//!
//! Read `reading`, then `known` and `entry`.
#![tactic(auto)]

mod entry;
mod known;
mod message;
mod near;
mod reading;
mod shown;

pub use known::{Among, Known};
pub use message::{Message, ToldMessage};
pub use near::is_near;
pub use reading::{Reading, capitals, is_name, is_number, part_of, says, says_one_of, word_places};
pub use shown::Shown;
