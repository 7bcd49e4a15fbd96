//! The records that are left in the bytes of a file which OPEN refuses.
//!
//! `salvage_records` closes the gate in bytes that are held, and checks them. Where they stand for
//! a file then, exactly its records are listed. Otherwise the records of all slots in use are, page
//! by page, whether or not the pages are those of a sound file, each prime value once. Where several
//! slots have one value, all of them are told; the one to which the entry of the prime key leads is
//! listed, if there is one. The file itself is never written.
//!
//! `salvage_slots` does so of the pages of any source, in several readings of 64 bytes a page: it
//! holds the values that several slots have, and no others.
//!
//! Read `specs/Salvaged.antt` for what is promised, `specs/Slots.antt` for the slots and
//! `specs/Doubt.antt` for those in doubt, then `salvaging`.
#![tactic(auto)]

mod doubling;
mod doubts;
mod filter;
mod held_lines;
mod law;
mod lead;
mod leaves;
mod noting;
mod picking;
mod salvaging;
mod shape;
mod sifting;
mod slot_lines;
mod slot_list;
mod slot_salvage;
mod slots;
mod telling;
mod used_slot;
mod values;
mod visiting;

pub use law::each_value_once;
pub use salvaging::{Salvage, close_gate, salvage_records};
pub use slot_salvage::{SalvageForm, salvage_slots};
