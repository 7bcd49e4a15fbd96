//! What a change does to the parts of an open file.

ghost use Rattle.std.specs.Prelude.{◌≡◌, ◌+◌, ◌≤◌, ◌<◌, ◌^◌, ◌++◌, ◌∷◌, [], ◌||◌, None, Some, length, not};
ghost use Rattle.std.specs.Prelude.{find};
ghost use Rattle.indexed_file.specs.Calls.{is_answered};
ghost use Rattle.record_heap.specs.Calls.{MayChange, MayFill, ReadsStamped};
ghost use Rattle.record_heap.specs.Found.{Got};
ghost use Rattle.record_heap.specs.Order.{AddsToHeap, SetsSlot};
ghost use Rattle.record_heap.specs.Standing.{slot_shape};
ghost use Rattle.key_index.specs.Stored.{entry_at};
ghost use Rattle.key_index.specs.Entries.{has_prime};
ghost use Rattle.key_index.specs.Calls.{FindsInPrime};
ghost use Rattle.key_index.specs.Changes.{MayAddPrime, AddsToPrime, TakesFromPrime};
ghost use Rattle.open_file.specs.Fields.{next_stamp_of, prime_index_of, alternates_of, heap_of, has_broken};
ghost use Rattle.open_file.specs.Fields.{with_mark, without_path, with_next_stamp, with_heap_of};
ghost use Rattle.open_file.specs.Fields.{with_prime_of, with_alternate};

use crate::open_file::OpenFile;
use io_state::Fault;
use key_index::{AltIndex, PrimeEntry};
use pages::Pages;
use record_heap::Place;

impl OpenFile {
    /// Marks the file as broken where a change ended in a fault other than Full. One that is broken
    /// stays so.
    pub fn end_change<X>(&mut self, ended: &Result<X, Fault>)
        ensures { self.new ≡ with_mark (has_broken self.old || not (is_answered ended.now)) self.old }
    {
        self.broken = self.broken || breaks(ended);
    }

    /// Forgets where the last READ NEXT left off: a change moves the entries of the indexes.
    pub fn forget_path(&mut self)
        ensures { self.new ≡ without_path self.old }
    {
        self.path = None;
    }

    /// Takes the next stamp.
    pub fn take_stamp(&mut self)
        requires { next_stamp_of self.old < 2 ^ 63 }
        ensures { self.new ≡ with_next_stamp (next_stamp_of self.old + 1) self.old }
    {
        self.next_stamp += 1;
    }

    /// The entry of a prime value of any length.
    ///
    /// Device, Damage.
    pub fn find_prime<P: Pages>(
        &self,
        pages: &mut P,
        value: &[u8],
    ) -> Result<Option<PrimeEntry>, Fault>
        requires ready { P.shown.IsReady pages.old }
        ensures { FindsInPrime P.shown pages.old pages.new (prime_index_of self.now)
            (find (has_prime value.now)) result }
    {
        self.prime.find(pages, value)
    }

    /// How many bytes the stamps are in front of a record in its slot.
    pub fn stamps_length(&self) -> u16
        ensures { result ≡ (slot_shape (heap_of self.now)).stamps }
    {
        self.heap.shape().stamps
    }

    /// Reads the stamps and the record at a place to the front of `to`, and answers how many bytes
    /// they are. At a fault all of `to` stays.
    ///
    /// Device; Damage where the place has no record.
    pub fn read_stored<P: Pages>(
        &self,
        pages: &mut P,
        place: Place,
        to: &mut [u8],
    ) -> Result<usize, Fault>
        requires ready { P.shown.IsReady pages.old }
        requires room { (slot_shape (heap_of self.now)).stamps + (slot_shape (heap_of self.now)).greatest
            ≤ length to.old }
        ensures { ReadsStamped P.shown pages.old pages.new (slot_shape (heap_of self.now)) to.old to.new
            result (Got (heap_of self.now) place) }
    {
        self.heap.get(pages, place, to)
    }

    /// Puts stamps and a record into a free slot of the heap, and answers its place.
    ///
    /// Device; Full where no slot is free and no page is left; Damage where a page is none of a heap.
    pub fn put_record<P: Pages>(
        &mut self,
        pages: &mut P,
        stamps: &[u8],
        bytes: &[u8],
    ) -> Result<Place, Fault>
        requires { MayFill P.shown pages.old (slot_shape (heap_of self.old)) stamps.now bytes.now }
        ensures heap { AddsToHeap P.shown pages.old pages.new (heap_of self.old) (heap_of self.new)
            (stamps.now ++ bytes.now) result }
        ensures rest { self.new ≡ with_heap_of self.new self.old }
    {
        self.heap.add(pages, stamps, bytes)
    }

    /// Puts other stamps and another record at a place in use. No page is taken.
    ///
    /// Device; Damage where the page is none of a heap.
    pub fn set_record<P: Pages>(
        &self,
        pages: &mut P,
        place: Place,
        stamps: &[u8],
        bytes: &[u8],
    ) -> Result<(), Fault>
        requires { MayFill P.shown pages.old (slot_shape (heap_of self.now)) stamps.now bytes.now }
        ensures { SetsSlot P.shown pages.old pages.new (heap_of self.now) (heap_of self.now) place
            (Some (stamps.now ++ bytes.now)) [] result }
    {
        self.heap.set(pages, place, stamps, bytes)
    }

    /// Gives the slot of a record back.
    ///
    /// Device; Damage where the page is none of a heap.
    pub fn free_record<P: Pages>(&mut self, pages: &mut P, place: Place) -> Result<(), Fault>
        requires { MayChange P.shown pages.old }
        ensures heap { SetsSlot P.shown pages.old pages.new (heap_of self.old) (heap_of self.new) place
            None (place ∷ []) result }
        ensures rest { self.new ≡ with_heap_of self.new self.old }
    {
        self.heap.free(pages, place)
    }

    /// Adds the entry of a prime value, and answers true; where the value is there, answers false.
    ///
    /// Device, Damage, Full, as of the index.
    pub fn insert_prime<P: Pages>(
        &mut self,
        pages: &mut P,
        value: &[u8],
        place: Place,
    ) -> Result<bool, Fault>
        requires { MayAddPrime P.shown pages.old (prime_index_of self.old) value.now }
        ensures index { AddsToPrime P.shown pages.old pages.new (prime_index_of self.old)
            (prime_index_of self.new) (entry_at value.now place) result }
        ensures rest { self.new ≡ with_prime_of self.new self.old }
    {
        self.prime.add(pages, value, place)
    }

    /// Takes out the entry of a prime value, and answers whether it was there.
    ///
    /// Device, Damage, as of the index.
    pub fn remove_prime<P: Pages>(&mut self, pages: &mut P, value: &[u8]) -> Result<bool, Fault>
        requires { MayChange P.shown pages.old }
        ensures index { TakesFromPrime P.shown pages.old pages.new (prime_index_of self.old)
            (prime_index_of self.new) value.now result }
        ensures rest { self.new ≡ with_prime_of self.new self.old }
    {
        self.prime.remove(pages, value)
    }

    /// Puts the index of alternate key j + 1 back, behind a change of it.
    pub fn put_alternate(&mut self, j: usize, index: AltIndex)
        requires { j < length (alternates_of self.old) }
        ensures { self.new ≡ with_alternate j index self.old }
    {
        self.alternates[j] = index;
    }
}

/// Whether a change that ended so leaves the file broken: after each fault but Full.
fn breaks<X>(ended: &Result<X, Fault>) -> bool
    ensures { result ≡ not (is_answered ended.now) }
{
    match ended {
        Ok(_) | Err(Fault::Full) => false,
        Err(_) => true,
    }
}
