//! The parts of a file, over its pages.

ghost use Rattle.std.specs.Prelude.{◌≡◌, IfErr, OnOk, length};
ghost use Rattle.page_walks.specs.Spots.{spots_in};
ghost use Rattle.pages.specs.Source.{KeepsItsPages, OfItsPages};
ghost use Rattle.open_file.specs.Bounds.{IsHeader};
ghost use Rattle.open_file.specs.Stands.{IsShaped};
ghost use Rattle.file_checker.specs.Ahead.{AlternatesAhead};
ghost use Rattle.file_checker.specs.Later.{ChecksPages, TellsOfAlternates};
ghost use Rattle.pages.specs.Refused.{RefusesRightly};
ghost use Rattle.file_checker.specs.Lost.{first_unmarked};
ghost use Rattle.file_checker.specs.Parts.{AllFound, AlternatesCount, MayCheckParts};

use crate::alternate::check_alternate;
use crate::lent_pages::LentPages;
use crate::prime_rows::check_rows;
use open_file::{Header, OpenFile};
use page_walks::{Leaf, walk_free, walk_heap, walk_tree};
use pages::{Damage, FaultPlace, PAGE_SIZE, PageList, WalkFault, mark};
use std::alloc::Global;

/// Walks the index of each alternate key, and compares it with the rows to which the entries of
/// `primes` lead.
fn check_alternates<P: LentPages>(
    alloc: Global,
    pages: &mut P,
    file: &OpenFile,
    primes: &[Leaf],
    reached: &mut [bool],
) -> Result<(), WalkFault>
    requires shaped { IsShaped file.now }
    requires many { OfItsPages P.has pages.old
        (λ list. AlternatesCount file.now (length (spots_in primes.now))) }
    ensures found { OfItsPages P.has pages.new (λ list. OnOk result
        (AllFound file.now list (spots_in primes.now) reached.old reached.new)) }
    ensures refused { OfItsPages P.has pages.new (λ list. IfErr result
        (RefusesRightly (AlternatesAhead file.now list primes.now 0 reached.old))) }
    ensures told { OfItsPages P.has pages.new
        (λ list. IfErr result (TellsOfAlternates file.now list primes.now reached.old)) }
    ensures before { KeepsItsPages P.has pages.old pages.new }
{
    for &index in file.alternates() {
        let leaves = walk_tree(alloc, pages, &index.tree, reached)?;
        check_alternate(pages, file, primes, index, &leaves)?;
    }
    Ok(())
}

/// The first page without a mark, if there is one.
fn first_lost(reached: &[bool]) -> Option<usize>
    ensures { result ≡ first_unmarked reached.now }
{
    reached.iter().position(|is_reached| !*is_reached)
}

/// Checks the pages of a file, all that its header counts, where none is marked yet. Each part is
/// walked, and its entries and records are compared, and in the end no page may be without a mark.
fn check_parts<P: LentPages>(
    alloc: Global,
    pages: &mut P,
    header: &Header,
    reached: &mut [bool],
) -> Result<(), WalkFault>
    requires header { IsHeader header.now }
    requires many { length reached.old ≡ header.now.pages }
    requires may { OfItsPages P.has pages.old (λ list. MayCheckParts header.now list reached.old) }
    ensures checks { OfItsPages P.has pages.new (λ list. ChecksPages header.now list result) }
    ensures before { KeepsItsPages P.has pages.old pages.new }
{
    let file = OpenFile::from_header(header);
    mark(reached, 0)?;
    walk_free(pages, header.first_free, header.free, reached)?;
    let own = walk_heap(alloc, pages, file.heap(), reached)?;
    let primes = walk_tree(alloc, pages, &file.prime().tree, reached)?;
    check_rows(alloc, pages, reached.len(), &file, &own, &primes)?;
    check_alternates(alloc, pages, &file, &primes, reached)?;
    match first_lost(reached) {
        Some(n) => Err(WalkFault::At(Damage::Lost, FaultPlace::Page(n as u32))),
        None => Ok(()),
    }
}

/// Checks the pages of a file, all that its header counts.
pub fn check_pages<P: LentPages>(
    alloc: Global,
    pages: &mut P,
    header: &Header,
) -> Result<(), WalkFault>
    requires header { IsHeader header.now }
    requires counted { OfItsPages P.has pages.old (λ list. length list ≡ header.now.pages) }
    ensures checks { OfItsPages P.has pages.new (λ list. ChecksPages header.now list result) }
    ensures before { KeepsItsPages P.has pages.old pages.new }
{
    let mut reached = match vec![in alloc; false; header.pages as usize] {
        Ok(reached) => reached,
        Err(_) => return Err(WalkFault::Memory),
    };
    check_parts(alloc, pages, header, &mut reached)
}

/// Checks the pages of a file in memory, all that its header counts.
pub fn check_listed(
    alloc: Global,
    pages: &[[u8; PAGE_SIZE]],
    header: &Header,
) -> Result<(), WalkFault>
    requires header { IsHeader header.now }
    requires counted { length pages.now ≡ header.now.pages }
    ensures { ChecksPages header.now pages.now result }
{
    let mut source = PageList { pages };
    check_pages(alloc, &mut source, header)
}
