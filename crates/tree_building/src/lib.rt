//! B+ trees, and the indexes of a file, built from entries that rise, from the leaves up.
//!
//! Each page is one that was not in use, and is written once. A leaf is filled whole, but for the
//! last two, which share what is left; so are the nodes of each level above. Where the keys rise,
//! what comes out stands for exactly the entries that were pushed, by the definitions of `bplus_tree`
//! and `key_index`. No page that was in use is changed, at a fault either. Builders that are open
//! side by side leave each other as they are: `laws` says so.
//!
//! Where entries come from is not known here. Read `specs/Building.antt`, then `builder`;
//! `specs/IndexBuilding.antt`, then `prime_builder`.
#![tactic(auto)]

mod alt_builder;
mod builder;
mod ending;
mod fresh_page;
mod laws;
mod leaves;
mod nodes;
mod pending;
mod prime_builder;
mod rising;
mod sharing;

pub use alt_builder::AltBuilder;
pub use builder::TreeBuilder;
pub use laws::{alt_builder_laws, entry_order_laws, heap_builder_laws, prime_builder_laws};
pub use prime_builder::PrimeBuilder;
