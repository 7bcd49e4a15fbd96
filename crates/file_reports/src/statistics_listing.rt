//! What is told of the file of a unit.
ghost use Rattle.std.specs.Prelude.{◌≡◌, IfErr, IfOk, Some};
ghost use Rattle.pages.specs.Refused.{RefusesRightly};
ghost use Rattle.pages.specs.Source.{KeepsItsPages, OfItsPages};
ghost use Rattle.page_store.specs.DeviceFile.{content};
ghost use Rattle.page_store.specs.Pages.{HoldsPages};
ghost use Rattle.page_store.specs.ShelfState.{HasUnit, WhereHonest};
ghost use Rattle.page_store.specs.ShelfCalls.{HasUnitWith};
ghost use Rattle.page_walks.specs.Rows.{page_at};
ghost use Rattle.open_file.specs.Bounds.{IsHeader};
ghost use Rattle.open_file.specs.FirstPageReading.{header_in};
ghost use Rattle.file_reports.specs.StatisticsListing.{IsOfSound, IsSoundWith, ListsStatistics, TellsEach, WritesCounts};

use crate::counting::count_file;
use crate::statistics_lines::statistics_lines;
use file_checker::{Reason, UnitAsked, UnitPages, Verdict, check_unit};
use io_state::Fault;
use open_file::Header;
use page_store::Shelf;
use pages::{Damage, FaultPlace, PageSource, WalkFault};
use std::alloc::Global;
use std::io::Write;
use std::marker::Brand;
use std::num::NonZeroUsize;
use thiserror::Error;

/// What became of the statistics of a file.
#[derive(Clone, Copy, Debug, PartialEq, Eq)]
pub enum FileStatisticsEnd {
    /// The lines were written.
    Listed,
    /// The file is unsound, for the reason that a check tells, which was met there. Nothing was written.
    Unsound(Reason, FaultPlace),
}

/// Why nothing is told of a file, or not all.
#[derive(Clone, Copy, Debug, PartialEq, Eq, Error)]
pub enum StatisticsFault {
    #[error("the file cannot be read")]
    Input,
    #[error("the lines cannot be written")]
    Output,
    #[error("out of memory")]
    Memory,
}

/// The header of the first page. Node: it has none.
fn first_header<P: PageSource>(pages: &mut P) -> Result<Header, WalkFault>
    ensures header { OfItsPages P.has pages.new
        (λ list. IfOk result (λ header. Some header ≡ header_in (page_at list 0))) }
    ensures allowed { IfOk result IsHeader }
    ensures refused { OfItsPages P.has pages.new (λ list. IfErr result (RefusesRightly (IsOfSound list))) }
    ensures before { KeepsItsPages P.has pages.old pages.new }
{
    match pages.page(0) {
        Some(first) => match Header::read(&first) {
            Some(header) => Ok(header),
            None => Err(WalkFault::of_page(Damage::Node, 0)),
        },
        None => Err(WalkFault::of_page(Damage::Node, 0)),
    }
}

/// The lines of a file whose pages these are. Node: they are those of no sound file.
fn lines_of<P: PageSource>(alloc: Global, pages: &mut P) -> Result<Vec<u8>, WalkFault>
    ensures lines { OfItsPages P.has pages.new
        (λ list. IfOk result (λ lines. TellsEach list lines.items)) }
    ensures refused { OfItsPages P.has pages.new (λ list. IfErr result (RefusesRightly (IsOfSound list))) }
    ensures before { KeepsItsPages P.has pages.old pages.new }
{
    let header = first_header(pages)?;
    let counts = count_file(alloc, pages, &header)?;
    statistics_lines(alloc, &counts).map_err(|_| WalkFault::Memory)
}

/// Writes lines, if there are.
fn write_lines<W: Write>(
    lines: Result<Vec<u8>, WalkFault>,
    out: &mut W,
) -> Result<(), StatisticsFault>
    ensures { WritesCounts lines (W.contents out.old) (W.contents out.new) result }
{
    match lines {
        Ok(lines) => match out.write_all(&lines) {
            Ok(()) => Ok(()),
            Err(_) => Err(StatisticsFault::Output),
        },
        Err(WalkFault::Memory) => Err(StatisticsFault::Memory),
        Err(WalkFault::At(_, _)) => Err(StatisticsFault::Input),
    }
}

/// Writes what is counted of the file of a unit that was found sound, with so many pages.
fn write_unit<S: Shelf, A: UnitAsked, W: Write>(
    alloc: Global,
    shelf: S,
    unit: usize,
    count: u32,
    frames: NonZeroUsize,
    out: &mut W,
) -> (S, Result<FileStatisticsEnd, StatisticsFault>)
    requires holds { HasUnitWith (S.state shelf) unit (HoldsPages count) }
    requires sound { WhereHonest (S.state shelf) unit (λ file. IsSoundWith (content file) count) }
    requires asked { (unit ≡ A.unit) × (count ≡ A.count) }
    requires before { (S.state shelf ≡ A.before) × (S.fault_count shelf ≡ A.faults) }
    ensures { ListsStatistics S.state S.fault_count unit shelf result.0 (W.contents out.old)
        (W.contents out.new) result.1 }
{
    let mut pages: UnitPages<S, A> = UnitPages::new(alloc, shelf, unit, count, frames);
    let lines = lines_of(alloc, &mut pages);
    let (shelf, has_failed) = pages.into_shelf();
    if has_failed {
        return (shelf, Err(StatisticsFault::Input));
    }
    match write_lines(lines, out) {
        Ok(()) => (shelf, Ok(FileStatisticsEnd::Listed)),
        Err(fault) => (shelf, Err(fault)),
    }
}

/// Writes what is counted of the file of a unit, once a check has found it sound: its pages by
/// their kinds, its slots, and the levels of its trees. Its pages are read when they are wanted, and
/// kept in `frames` frames at most, of 4,100 bytes each; beside them at most 32 bytes are held for
/// each page of the file, and a bit for each slot of its heap.
///
/// `Input`: a call on the unit failed. `Output`: the writer refused the lines; a part of them may
/// have been written. `Memory`. But for `Output` nothing was written.
pub fn list_statistics<S: Shelf, W: Write>(
    alloc: Global,
    shelf: S,
    unit: usize,
    frames: NonZeroUsize,
    out: &mut W,
) -> (S, Result<FileStatisticsEnd, StatisticsFault>)
    requires { HasUnit (S.state shelf) unit }
    ensures { ListsStatistics S.state S.fault_count unit shelf result.0 (W.contents out.old)
        (W.contents out.new) result.1 }
{
    let (shelf, found) = check_unit(alloc, shelf, unit, frames);
    match found {
        Ok(Verdict::Sound { records: _, pages }) => {
            write_unit::<S, Brand, W>(alloc, shelf, unit, pages, frames, out)
        }
        Ok(Verdict::Unsound(reason, place)) => {
            (shelf, Ok(FileStatisticsEnd::Unsound(reason, place)))
        }
        Err(Fault::Device) => (shelf, Err(StatisticsFault::Input)),
        Err(_) => (shelf, Err(StatisticsFault::Memory)),
    }
}
