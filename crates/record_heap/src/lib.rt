//! The heap: the records of a file, each with its stamps, in slots of one size in pages of their own.
//!
//! A place, a page and a slot in it, holds a record until it is freed. A freed slot is the next one
//! taken, and a new page is taken only where no slot is free; heap pages are never given back.
//! Which record lies where is not known here.
//!
//! Read `shape` (the size of a slot), `slot` (the bytes of one), `slots` (those of a page), `calls`
//! (one call on one page), then `heap`. What stands is said in `specs/Standing.antt`; `specs/Walk.antt`
//! and `specs/Faults.antt` are for whoever walks a heap.
#![tactic(auto)]

mod builder;
mod calls;
mod heap;
mod laws;
mod shape;
pub mod slot;
pub mod slots;

pub use builder::HeapBuilder;
pub use heap::Heap;
pub use laws::heap_laws;
pub use shape::{Place, SlotShape};
