//! Pages in memory.

use io_state::Fault;
use pages::Pages;
use std::alloc::{AllocError, Global};

/// Pages by number, the free ones among them, and how many can be taken yet. Page 0 is never taken.
#[derive(Drop)]
pub struct MemoryPages {
    pub pages: Vec<[u8; 4096]>,
    pub free: Vec<u32>,
    pub left: u64,
}

impl MemoryPages {
    /// Page 0 and so many others, which are all taken, and room for so many more.
    pub fn new(alloc: Global, others: usize, left: u64) -> Result<MemoryPages, AllocError> {
        let pages = vec![in alloc; [0; 4096]; others.saturating_add(1)]?;
        Ok(MemoryPages {
            pages,
            free: Vec::new(alloc),
            left,
        })
    }

    /// How many pages are taken.
    pub fn taken(&self) -> usize {
        self.pages
            .len()
            .saturating_sub(self.free.len())
            .saturating_sub(1)
    }
}

// Nothing is claimed of what the pages hold: honesty is never true here, and what a test sees is what
// it asks. Where memory for a page lacks, the device has failed.
impl Pages for MemoryPages {
    ghost use Rattle.std.specs.Prelude.{◌≡◌, ⊤, refl};
    ghost use Rattle.std.proofs.Common.{◌∙◌, le_refl};
    ghost use Rattle.memory_shelf.specs.MemoryPages.{unclaimed};

    ghost shown = { record {
      state = λ p. unclaimed p.left;
      IsReady = λ p. ⊤;
      CanChange = λ p. ⊤;
      Reads = λ a b. b.left ≡ a.left;
      Writes = λ a b. ⊤;
      Begins = λ a b. ⊤;
      HasFailed = λ a b. ⊤;
    } };

    ghost reads_nothing = { λ a. refl };

    ghost reads_on = { λ a b c ab bc. bc ∙ ab };

    ghost reads_writes = { λ a b reads. tt };

    ghost reads_live = { λ a b reads honest. refl };

    ghost reads_sound = { λ a b reads honest. refl };

    ghost reads_available = { λ a b reads. reads };

    ghost writes_nothing = { λ a. tt };

    ghost writes_on = { λ a b c ab bc. tt };

    ghost writes_begins = { λ a b goes. tt };

    ghost writes_honestly = { λ a b goes honest. honest };

    ghost writes_ready = { λ a b goes ready. tt };

    ghost writes_changing = { λ a b goes changing. tt };

    ghost writes_counts = { λ a b goes. le_refl 0 };

    ghost failed_before = { λ a b c failed goes. failed };

    ghost failed_after = { λ a b c goes failed. failed };

    ghost begins_on = { λ a b c ab bc. tt };

    ghost begins_honestly = { λ a b moves honest. honest };

    ghost begins_ready = { λ a b moves ready. tt };

    ghost begins_counts = { λ a b moves. le_refl 0 };

    ghost failed_earlier = { λ a b c failed moves. failed };

    ghost failed_later = { λ a b c moves failed. failed };

    fn page(&mut self, n: u32) -> Result<&[u8; 4096], Fault> {
        match self.pages.get(n as usize) {
            None => Err(Fault::Damage),
            Some(page) => Ok(page),
        }
    }

    fn demote(&mut self, _n: u32) {}

    fn page_mut(&mut self, n: u32) -> Result<&mut [u8; 4096], Fault> {
        match self.pages.get_mut(n as usize) {
            None => Err(Fault::Damage),
            Some(page) => Ok(page),
        }
    }

    fn take(&mut self) -> Result<u32, Fault> {
        if self.left == 0 {
            return Err(Fault::Full);
        }
        if let Some(n) = self.free.pop() {
            self.left -= 1;
            return Ok(n);
        }
        let n = self.pages.len();
        if n > u32::MAX as usize {
            return Err(Fault::Device);
        }
        match self.pages.push([0; 4096]) {
            Err(_) => Err(Fault::Device),
            Ok(()) => {
                self.left -= 1;
                Ok(n as u32)
            }
        }
    }

    fn give(&mut self, n: u32) -> Result<(), Fault> {
        if self.left == u64::MAX {
            return Err(Fault::Device);
        }
        match self.free.push(n) {
            Err(_) => Err(Fault::Device),
            Ok(()) => {
                self.left += 1;
                Ok(())
            }
        }
    }

    fn pages_left(&self) -> u64 {
        self.left
    }

    fn count(&self) -> u32 {
        self.pages.len().min(u32::MAX as usize) as u32
    }

    fn begin(&mut self) -> Result<(), Fault> {
        Ok(())
    }
}
