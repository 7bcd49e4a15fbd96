//! The check of bytes that are held.

ghost use Rattle.std.specs.Prelude.{◌≡◌, ◌≤◌, ◌<◌, None, length, IfOk};
ghost use Rattle.std.specs.Option.{IfSome};
ghost use Rattle.open_file.specs.FirstPageReading.{header_in};
ghost use Rattle.open_file.specs.Bounds.{IsHeader};
ghost use Rattle.page_store.specs.DeviceFile.{page_of_bytes};
ghost use Rattle.pages.specs.declared.fault_place.FaultPlace.TheVariants.{File as TheFile};
ghost use Rattle.file_checker.specs.Sound.{IsRight, IsRightOfPages, IsUnsoundAt};
ghost use Rattle.file_checker.specs.Bytes.{AreAllPages, AreFrontOf};

use crate::parts::check_listed;
use crate::verdict::{Reason, Verdict};
use byteorder::{BigEndian, ByteOrder};
use open_file::Header;
use pages::{FaultPlace, PAGE_SIZE, WalkFault};
use std::alloc::{AllocError, Global};

/// Where the first page counts the pages, itself among them.
const PAGES: usize = 12;

const PAGES_END: usize = 16;

/// The first byte of a file whose gate is closed.
const CLOSED: u8 = b'C';

/// The whole pages of bytes, where they lie.
fn pages_in(bytes: &[u8]) -> &[[u8; PAGE_SIZE]]
    ensures { AreAllPages bytes.now result.now }
{
    let (pages, _) = bytes.as_chunks::<PAGE_SIZE>();
    pages
}

/// So many of the first pages, if there are.
fn front_of(pages: &[[u8; PAGE_SIZE]], count: u32) -> Option<&[[u8; PAGE_SIZE]]>
    ensures some { IfSome result (λ front. AreFrontOf pages.now count front.now) }
    ensures none { result ≡ None → length pages.now < count }
{
    pages.get(..count as usize)
}

/// Why the file that has these bytes is refused by its first page.
fn refusal(bytes: &[u8], first: &[u8; PAGE_SIZE]) -> Reason
    requires first { page_of_bytes bytes.now 0 ≡ first.now }
    requires long { 4096 ≤ length bytes.now }
    requires none { header_in first.now ≡ None }
    ensures { IsUnsoundAt TheFile bytes.now result }
{
    let pages = BigEndian::read_u32(&first[PAGES..PAGES_END]);
    if bytes.len() / PAGE_SIZE < pages as usize {
        return Reason::Short;
    }
    if first[0] != CLOSED {
        return Reason::Gate;
    }
    Reason::Header
}

/// Checks a file with this header, of which these are the pages.
fn check_counted(
    alloc: Global,
    pages: &[[u8; PAGE_SIZE]],
    header: &Header,
) -> Result<Verdict, AllocError>
    requires header { IsHeader header.now }
    requires counted { length pages.now ≡ header.now.pages }
    ensures { IfOk result (IsRightOfPages header.now pages.now) }
{
    match check_listed(alloc, pages, header) {
        Ok(()) => Ok(Verdict::Sound {
            records: header.records,
            pages: header.pages,
        }),
        Err(WalkFault::At(damage, place)) => Ok(Verdict::Unsound(Reason::of_damage(damage), place)),
        Err(WalkFault::Memory) => Err(AllocError),
    }
}

/// Checks the file that begins with this page, of which these are all whole pages.
fn check_from(
    alloc: Global,
    bytes: &[u8],
    pages: &[[u8; PAGE_SIZE]],
    first: &[u8; PAGE_SIZE],
) -> Result<Verdict, AllocError>
    requires pages { AreAllPages bytes.now pages.now }
    requires first { page_of_bytes bytes.now 0 ≡ first.now }
    requires long { 4096 ≤ length bytes.now }
    ensures { IfOk result (IsRight bytes.now) }
{
    let header = match Header::read(first) {
        Some(header) => header,
        None => return Ok(Verdict::Unsound(refusal(bytes, first), FaultPlace::File)),
    };
    match front_of(pages, header.pages) {
        Some(counted) => check_counted(alloc, counted, &header),
        None => Ok(Verdict::Unsound(Reason::Short, FaultPlace::File)),
    }
}

/// Checks the file that has these bytes, where they lie: its pages are not copied. It is the
/// verdict that `check_file` tells of a reader that has them. An error is want of memory.
pub fn check_bytes(alloc: Global, bytes: &[u8]) -> Result<Verdict, AllocError>
    ensures { IfOk result (IsRight bytes.now) }
{
    let pages = pages_in(bytes);
    match pages.first() {
        Some(first) => check_from(alloc, bytes, pages, first),
        None => Ok(Verdict::Unsound(Reason::Short, FaultPlace::File)),
    }
}
