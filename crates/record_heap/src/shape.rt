//! What the slots of one heap have in common.

ghost use Rattle.std.specs.Prelude.{◌≡◌, ◌≤◌, ◌+◌, ◌*◌, ◌<◌};

/// A slot of a heap page. Page 0 is no place.
#[derive(Clone, Copy, Debug, PartialEq, Eq)]
pub struct Place {
    pub page: u32,
    pub slot: u16,
}

/// The bytes that the stamps of a record take, and the least and the greatest length of a record,
/// in bytes. Where these differ, a slot holds the record's length.
#[derive(Clone, Copy, Debug, PartialEq, Eq)]
pub struct SlotShape {
    pub stamps: u16,
    pub least: u16,
    pub greatest: u16,
    ghost order: { least ≤ greatest },
    ghost fits: { stamps + greatest ≤ 4077 },
}

impl SlotShape {
    ghost use Rattle.record_heap.specs.Slot.{head, size, room};

    /// The bytes before the stamps: the mark of a slot in use, and the length where lengths vary.
    pub fn head(self) -> usize
        ensures { result ≡ head self }
    {
        if self.least < self.greatest { 3 } else { 1 }
    }

    /// The bytes of a slot.
    pub fn size(self) -> usize
        ensures value { result ≡ size self }
        ensures least { 7 ≤ result }
        ensures greatest { result ≤ 4080 }
        ensures holds { head self + (self.stamps + self.greatest) ≤ result }
    {
        (self.head() + self.stamps as usize + self.greatest as usize).max(7)
    }

    /// The slots of a page.
    pub fn room(self) -> usize
        ensures value { result ≡ room self }
        ensures some { 1 ≤ result }
        ensures fits { result * size self ≤ 4080 }
        ensures few { result < 65536 }
    {
        4080 / self.size()
    }
}
