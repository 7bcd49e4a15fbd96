//! What a leaf answers, and how long it takes.

use super::entries::key_of;
use super::leaf::Leaf;
use crate::timing::nanoseconds_since;
use std::alloc::AllocError;
use std::io;
use std::time::{Clock, Instant};

/// The sum of the places that were answered, and the time that it took.
#[derive(Clone, Copy)]
pub struct Timed {
    pub places: u64,
    pub nanoseconds: u64,
}

#[derive(Clone, Copy)]
pub struct Measured {
    pub look_ups: Timed,
    pub inserts: Timed,
}

impl Timed {
    fn or_faster(self, other: Timed) -> Timed {
        if other.nanoseconds < self.nanoseconds {
            other
        } else {
            self
        }
    }
}

impl Measured {
    /// The faster one of each.
    pub fn or_faster(self, other: Measured) -> Measured {
        Measured {
            look_ups: self.look_ups.or_faster(other.look_ups),
            inserts: self.inserts.or_faster(other.inserts),
        }
    }
}

/// Looks each entry up in a leaf that has the first `room` of them, and then puts each in.
pub fn measure<const WIDTH: usize, const ENTRY: usize, L: Leaf<ENTRY>>(
    clock: &impl Clock,
    leaf: &mut L,
    entries: &[[u8; ENTRY]],
    room: usize,
) -> io::Result<Measured> {
    leaf.empty();
    let _ = inserts(leaf, entries.get(..room).unwrap_or(&[]))?;
    let start = Instant::now(clock)?;
    let places = look_ups::<WIDTH, ENTRY, L>(leaf, entries);
    let look_ups = timed_since(clock, start, places)?;
    let start = Instant::now(clock)?;
    let places = inserts(leaf, entries)?;
    let inserts = timed_since(clock, start, places)?;
    Ok(Measured { look_ups, inserts })
}

fn timed_since(clock: &impl Clock, start: Instant, places: u64) -> io::Result<Timed> {
    let nanoseconds = nanoseconds_since(clock, start)?;
    Ok(Timed {
        places,
        nanoseconds: u64::try_from(nanoseconds).unwrap_or(u64::MAX),
    })
}

#[inline(never)]
fn look_ups<const WIDTH: usize, const ENTRY: usize, L: Leaf<ENTRY>>(
    leaf: &L,
    entries: &[[u8; ENTRY]],
) -> u64 {
    let mut places = 0u64;
    for entry in entries {
        places = places.wrapping_add(leaf.rank(key_of::<WIDTH, ENTRY>(entry)) as u64);
    }
    places
}

#[inline(never)]
fn inserts<const ENTRY: usize, L: Leaf<ENTRY>>(
    leaf: &mut L,
    entries: &[[u8; ENTRY]],
) -> Result<u64, AllocError> {
    let mut places = 0u64;
    for entry in entries {
        places = places.wrapping_add(leaf.insert(entry)? as u64);
    }
    Ok(places)
}
