//! The check of a file on a shelf.

ghost use Rattle.std.specs.Prelude.{◌≡◌, IfOk, length};
ghost use Rattle.pages.specs.Source.{OfItsPages};
ghost use Rattle.open_file.specs.Bounds.{IsHeader};
ghost use Rattle.page_store.specs.ShelfState.{HasUnit};
ghost use Rattle.page_store.specs.ShelfCalls.{AsksUnit, HasUnitWith};
ghost use Rattle.file_checker.specs.declared.first_look.FirstLook.TheVariants.{Accepted};
ghost use Rattle.file_checker.specs.FirstLook.{HasAllowed, IsLookAt};
ghost use Rattle.file_checker.specs.Sound.{IsRightOfPages};
ghost use Rattle.file_checker.specs.UnitChecking.{ChecksUnit};

use crate::first_look::{FirstLook, first_look};
use crate::lent_pages::LentPages;
use crate::parts::check_pages;
use crate::source::UnitPages;
use crate::unit_asked::UnitAsked;
use crate::verdict::{Reason, Verdict};
use io_state::Fault;
use open_file::Header;
use page_store::Shelf;
use pages::{FaultPlace, PAGE_SIZE, WalkFault};
use std::alloc::{AllocError, Global};
use std::marker::Brand;
use std::num::NonZeroUsize;

/// Looks at the first page of a unit's file, and at how many bytes it has.
fn look_at<S: Shelf>(shelf: &mut S, unit: usize) -> Result<FirstLook, Fault>
    requires { HasUnit (S.state shelf.old) unit }
    ensures look { AsksUnit S.state S.fault_count unit IsLookAt shelf.old shelf.new result }
    ensures allowed { IfOk result HasAllowed }
{
    if !shelf.exists(unit)? {
        return Ok(FirstLook::Refused(Reason::Short));
    }
    let size = shelf.size(unit)?;
    if size < 4096 {
        return Ok(FirstLook::Refused(Reason::Short));
    }
    let mut first = [0; PAGE_SIZE];
    shelf.read_at(unit, 0, &mut first)?;
    Ok(first_look(size, &first))
}

/// Checks the pages that a header counts.
fn check_counted<P: LentPages>(
    alloc: Global,
    pages: &mut P,
    header: &Header,
) -> Result<Verdict, AllocError>
    requires header { IsHeader header.now }
    requires counted { OfItsPages P.has pages.old (λ list. length list ≡ header.now.pages) }
    ensures { OfItsPages P.has pages.new (λ list. IfOk result (IsRightOfPages header.now list)) }
{
    match check_pages(alloc, pages, header) {
        Ok(()) => Ok(Verdict::Sound {
            records: header.records,
            pages: header.pages,
        }),
        Err(WalkFault::At(damage, place)) => Ok(Verdict::Unsound(Reason::of_damage(damage), place)),
        Err(WalkFault::Memory) => Err(AllocError),
    }
}

/// Checks the pages of a unit's file that its header counts.
fn check_unit_pages<S: Shelf, A: UnitAsked>(
    alloc: Global,
    shelf: S,
    unit: usize,
    header: &Header,
    frames: NonZeroUsize,
) -> (S, Result<Verdict, Fault>)
    requires accepted { HasUnitWith (S.state shelf) unit (λ file. IsLookAt file (Accepted header.now)) }
    requires header { IsHeader header.now }
    requires asked { (unit ≡ A.unit) × (header.now.pages ≡ A.count) }
    requires before { (S.state shelf ≡ A.before) × (S.fault_count shelf ≡ A.faults) }
    ensures { ChecksUnit S.state S.fault_count unit shelf result.0 result.1 }
{
    let mut pages: UnitPages<S, A> = UnitPages::new(alloc, shelf, unit, header.pages, frames);
    let found = check_counted(alloc, &mut pages, header);
    let (shelf, has_failed) = pages.into_shelf();
    if has_failed {
        return (shelf, Err(Fault::Device));
    }
    match found {
        Ok(verdict) => (shelf, Ok(verdict)),
        Err(_) => (shelf, Err(Fault::Memory)),
    }
}

/// Checks the file of a unit of a shelf: tells of it what `check_bytes` tells of its bytes. Its
/// pages are read when the check wants them, and nothing is written. A file that is not there has no
/// bytes, so it is told as short.
///
/// Pages that were read are kept in `frames` frames at most, of 4,100 bytes each, and in none where
/// memory is wanting for them. Where there are as many frames as pages, each page is read once.
///
/// Device where a call on the unit failed; Memory.
pub fn check_unit<S: Shelf>(
    alloc: Global,
    shelf: S,
    unit: usize,
    frames: NonZeroUsize,
) -> (S, Result<Verdict, Fault>)
    requires { HasUnit (S.state shelf) unit }
    ensures { ChecksUnit S.state S.fault_count unit shelf result.0 result.1 }
{
    let mut shelf = shelf;
    match look_at(&mut shelf, unit) {
        Err(fault) => (shelf, Err(fault)),
        Ok(FirstLook::Refused(reason)) => (shelf, Ok(Verdict::Unsound(reason, FaultPlace::File))),
        Ok(FirstLook::Accepted(header)) => check_unit_pages::<S, Brand>(
            alloc, shelf, unit, &header, frames,
        ),
    }
}
