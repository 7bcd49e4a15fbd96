//! The free pages of a file.
//!
//! | Bytes | Content |
//! |---|---|
//! | 0 to 3 | `F`, and zero |
//! | 4 to 7 | next free page, 0 at the end of the chain |

ghost use Rattle.std.specs.Prelude.{IfErr, IfOk, OnOk};
ghost use Rattle.pages.specs.Marks.{marked_in};
ghost use Rattle.pages.specs.Refused.{RefusesRightly};
ghost use Rattle.page_walks.specs.FreeWalk.{FreeAhead, FreeWalked, IsFreeFault, IsFreePage, IsFreePageAt};
ghost use Rattle.page_walks.specs.FreeWalk.{TellsOfNext};
ghost use Rattle.pages.specs.Told.{TellsOfFault};
ghost use Rattle.pages.specs.Source.{KeepsItsPages, OfItsPages};

use byteorder::{BigEndian, ByteOrder};
use pages::{Damage, PageSource, WalkFault, mark};

/// The first four bytes, as a number.
const FREE: u32 = 0x4600_0000;

/// The next free page.
const NEXT: usize = 4;

const NEXT_END: usize = 8;

/// The page behind a free page, to which another page leads.
fn behind<P: PageSource>(pages: &mut P, from: u32, n: u32) -> Result<u32, WalkFault>
    ensures leads { OfItsPages P.has pages.new
        (λ list. IfOk result (λ next. IsFreePageAt list n next)) }
    ensures refused { OfItsPages P.has pages.new
        (λ list. IfErr result (RefusesRightly (IsFreePage list n))) }
    ensures told { OfItsPages P.has pages.new (λ list. IfErr result (TellsOfNext list from n)) }
    ensures before { KeepsItsPages P.has pages.old pages.new }
{
    if n == 0 {
        return Err(WalkFault::of_page(Damage::Heap, from));
    }
    let Some(page) = pages.page(n) else {
        return Err(WalkFault::of_page(Damage::Heap, from));
    };
    if BigEndian::read_u32(&page[..NEXT]) != FREE {
        return Err(WalkFault::of_page(Damage::Heap, n));
    }
    Ok(BigEndian::read_u32(&page[NEXT..NEXT_END]))
}

/// Walks the chain of free pages of a file, of which there are so many, and marks them as reached.
///
/// Shared where one of them was reached before; Heap where the pages are no such chain: at a page
/// that is not free, or at the page that leads nowhere or too far, which is page 0 for the first.
/// At a fault some of its pages may be marked.
pub fn walk_free<P: PageSource>(
    pages: &mut P,
    first: u32,
    count: u32,
    reached: &mut [bool],
) -> Result<(), WalkFault>
    ensures walked { OfItsPages P.has pages.new
        (λ list. OnOk result (FreeWalked list first count (marked_in reached.old) (marked_in reached.new))) }
    ensures refused { OfItsPages P.has pages.new
        (λ list. IfErr result (RefusesRightly (FreeAhead list first count reached.old))) }
    ensures told { OfItsPages P.has pages.new
        (λ list. IfErr result (TellsOfFault (IsFreeFault list first count reached.old))) }
    ensures before { KeepsItsPages P.has pages.old pages.new }
{
    let mut from = 0;
    let mut at = first;
    for _ in 0..count {
        let next = behind(pages, from, at)?;
        mark(reached, at)?;
        from = at;
        at = next;
    }
    if at != 0 {
        return Err(WalkFault::of_page(Damage::Heap, from));
    }
    Ok(())
}
