//! The pages of an open file, for the layers above.

use crate::paged_file::PagedFile;
use io_state::Fault;
use page_store::Shelf;
use pages::{PAGE_SIZE, Pages};

/// An open file and the shelf that it is on, for one call.
#[derive(Drop)]
pub struct FilePages<'a, S: Shelf> {
    pub file: &'a mut PagedFile,
    pub shelf: &'a mut S,
}

impl<'a, S: Shelf> Pages for FilePages<'a, S> {
    ghost use Rattle.std.specs.Prelude.{◌≡◌, true, refl};
    ghost use Rattle.std.proofs.Common.{◌∙◌};
    ghost use Rattle.page_alloc.specs.Joining.{FaultsRose as Failed};
    ghost use Rattle.page_alloc.specs.PagedFile.{IsOpenOver, is_begun};
    ghost use Rattle.page_alloc.specs.Steps.{pages_state_of, ReadsFilePages, KeepsGate, MayOpenGate};
    ghost use Rattle.page_alloc.specs.StepLaws.{goes_nothing, goes_on, goes_moves, reads_nothing, reads_on};
    ghost use Rattle.page_alloc.specs.StepLaws.{moves_on, failed_before, failed_after};

    ghost shown = { record {
      state = λ p. pages_state_of p.file.now (S.Shelf.state p.shelf.now);
      IsReady = λ p. IsOpenOver p.file.now (S.Shelf.state p.shelf.now);
      CanChange = λ p. is_begun p.file.now ≡ true;
      Reads = λ a b. (b.file.ghost_name ≡ a.file.ghost_name) × (b.shelf.ghost_name ≡ a.shelf.ghost_name)
          × ReadsFilePages a.file.now b.file.now (S.Shelf.state a.shelf.now) (S.Shelf.state b.shelf.now)
          (S.Shelf.fault_count a.shelf.now) (S.Shelf.fault_count b.shelf.now);
      Writes = λ a b. (b.file.ghost_name ≡ a.file.ghost_name) × (b.shelf.ghost_name ≡ a.shelf.ghost_name)
          × KeepsGate a.file.now b.file.now (S.Shelf.state a.shelf.now) (S.Shelf.state b.shelf.now)
          (S.Shelf.fault_count a.shelf.now) (S.Shelf.fault_count b.shelf.now);
      Begins = λ a b. (b.file.ghost_name ≡ a.file.ghost_name) × (b.shelf.ghost_name ≡ a.shelf.ghost_name)
          × MayOpenGate a.file.now b.file.now (S.Shelf.state a.shelf.now) (S.Shelf.state b.shelf.now)
          (S.Shelf.fault_count a.shelf.now) (S.Shelf.fault_count b.shelf.now);
      HasFailed = λ a b. Failed (S.Shelf.fault_count a.shelf.now) (S.Shelf.fault_count b.shelf.now);
    } };

    ghost reads_nothing = { λ a. (
      refl,
      refl,
      reads_nothing a.file.now (S.Shelf.state a.shelf.now) (S.Shelf.fault_count a.shelf.now),
    ) };

    ghost reads_on = { λ a b c ab bc.
        (bc.0 ∙ ab.0, bc.1 ∙ ab.1, reads_on a.file.now b.file.now c.file.now _ _ _ _ _ _ ab.2 bc.2) };

    ghost reads_writes = { λ a b reads. (reads.0, reads.1, reads.2.goes) };

    ghost reads_live = { λ a b reads. reads.2.rests.live };

    ghost reads_sound = { λ a b reads. reads.2.rests.sound };

    ghost reads_available = { λ a b reads. reads.2.rests.available };

    ghost writes_nothing = { λ a.
        (refl, refl, goes_nothing a.file.now (S.Shelf.state a.shelf.now) (S.Shelf.fault_count a.shelf.now)) };

    ghost writes_on = { λ a b c ab bc.
        (bc.0 ∙ ab.0, bc.1 ∙ ab.1, goes_on a.file.now b.file.now c.file.now _ _ _ _ _ _ ab.2 bc.2) };

    ghost writes_begins = { λ a b goes. (goes.0, goes.1, goes_moves a.file.now b.file.now _ _ _ _ goes.2) };

    ghost writes_honestly = { λ a b goes. goes.2.parts.quietly.others.honest };

    ghost writes_ready = { λ a b goes. goes.2.ready };

    ghost writes_changing = { λ a b goes begun. goes.2.gate ∙ begun };

    ghost writes_counts = { λ a b goes. goes.2.parts.asked };

    ghost failed_before = { λ a b c failed goes. failed_before
        (S.Shelf.fault_count a.shelf.now) (S.Shelf.fault_count b.shelf.now) (S.Shelf.fault_count c.shelf.now)
        failed goes.2.parts.faults };

    ghost failed_after = { λ a b c goes failed. failed_after
        (S.Shelf.fault_count a.shelf.now) (S.Shelf.fault_count b.shelf.now) (S.Shelf.fault_count c.shelf.now)
        goes.2.parts.faults failed };

    ghost begins_on = { λ a b c ab bc.
        (bc.0 ∙ ab.0, bc.1 ∙ ab.1, moves_on a.file.now b.file.now c.file.now _ _ _ _ _ _ ab.2 bc.2) };

    ghost begins_honestly = { λ a b moves. moves.2.others.honest };

    ghost begins_ready = { λ a b moves. moves.2.ready };

    ghost begins_counts = { λ a b moves. moves.2.asked };

    ghost failed_earlier = { λ a b c failed moves. failed_before
        (S.Shelf.fault_count a.shelf.now) (S.Shelf.fault_count b.shelf.now) (S.Shelf.fault_count c.shelf.now)
        failed moves.2.faults };

    ghost failed_later = { λ a b c moves failed. failed_after
        (S.Shelf.fault_count a.shelf.now) (S.Shelf.fault_count b.shelf.now) (S.Shelf.fault_count c.shelf.now)
        moves.2.faults failed };

    fn page(&mut self, n: u32) -> Result<&[u8; PAGE_SIZE], Fault> {
        if n == 0 || n >= self.file.pager.count {
            return Err(Fault::Damage);
        }
        self.file.cache.load(&mut *self.shelf, n)?;
        self.file.cache.held(n)
    }

    fn demote(&mut self, n: u32) {
        self.file.cache.demote(n);
    }

    fn page_mut(&mut self, n: u32) -> Result<&mut [u8; PAGE_SIZE], Fault> {
        if n == 0 || n >= self.file.pager.count {
            return Err(Fault::Damage);
        }
        self.file.cache.load(&mut *self.shelf, n)?;
        self.file.cache.held_mut(n)
    }

    fn take(&mut self) -> Result<u32, Fault> {
        let file = &mut *self.file;
        file.pager.take(&mut file.cache, &mut *self.shelf)
    }

    fn give(&mut self, n: u32) -> Result<(), Fault> {
        let file = &mut *self.file;
        file.pager.give(&mut file.cache, &mut *self.shelf, n)
    }

    fn pages_left(&self) -> u64 {
        self.file.pager.available()
    }

    fn count(&self) -> u32 {
        self.file.pager.count
    }

    fn begin(&mut self) -> Result<(), Fault> {
        self.file.begin(&mut *self.shelf)
    }
}
