//! The records of a file: where each item stands, what a MOVE does to the record area, and the keys.
//!
//! `Layout::build` turns data description entries into the places of their items. `blank`, `takes`
//! and `put` are the record area and the MOVE statement. A `Schema` is what a file keeps of its
//! description: the least and the greatest record length, and the keys. Only `Layout::build` takes
//! memory.
//!
//! Read `layout` for items and their places, `area` for MOVE, and `schema` for keys and their values.
#![tactic(auto)]

mod area;
mod bytes;
mod fault;
mod item;
mod keys;
mod layout;
mod levels;
mod names_in_order;
mod parts;
mod picture;
mod placing;
mod schema;

pub use area::{Figure, Source, put, takes};
pub use bytes::Bytes;
pub use fault::{LayoutFault, SchemaFault};
pub use item::{Field, Item, Placed};
pub use layout::{Layout, one_outcome};
pub use picture::{Picture, one_picture};
pub use schema::{KeyKind, KeyPart, Schema};
