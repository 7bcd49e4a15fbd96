//! The check of a file.

ghost use Rattle.std.specs.Prelude.{◌≡◌, None};
ghost use Rattle.open_file.specs.FirstPageReading.{header_in};
ghost use Rattle.open_file.specs.FirstPage.{IsFirstPage};
ghost use Rattle.file_checker.specs.Sound.{ChecksBehind, ChecksReader, IsRight, RefusesBehind};

use crate::parts::check_listed;
use crate::reading::{push_page, read_page, read_pages, skip_pages};
use crate::verdict::{CheckFault, Reason, Verdict};
use byteorder::{BigEndian, ByteOrder};
use open_file::Header;
use pages::{FaultPlace, PAGE_SIZE, WalkFault};
use std::alloc::Global;
use std::io::Read;

/// Where the first page counts the pages, itself among them.
const PAGES: usize = 12;

const PAGES_END: usize = 16;

/// The first byte of a file whose gate is closed.
const CLOSED: u8 = b'C';

/// Why a file is refused by its first page, behind which the reader stands.
fn refusal<R: Read>(reader: &mut R, first: &[u8; PAGE_SIZE]) -> Result<Reason, CheckFault>
    requires { header_in first.now ≡ None }
    ensures { RefusesBehind first.now (R.remaining reader.old) (R.remaining reader.new) result }
{
    let pages = BigEndian::read_u32(&first[PAGES..PAGES_END]);
    if !skip_pages(reader, pages.saturating_sub(1))? {
        return Ok(Reason::Short);
    }
    if first[0] != CLOSED {
        return Ok(Reason::Gate);
    }
    Ok(Reason::Header)
}

/// Checks the file of a header that its first page has, behind which the reader stands.
fn check_accepted<R: Read>(
    alloc: Global,
    reader: &mut R,
    first: &[u8; PAGE_SIZE],
    header: &Header,
) -> Result<Verdict, CheckFault>
    requires { IsFirstPage header.now first.now }
    ensures { ChecksBehind first.now IsRight (λ verdict. verdict)
        (R.remaining reader.old) (R.remaining reader.new) result }
{
    let mut pages = Vec::new(alloc);
    push_page(&mut pages, *first)?;
    if !read_pages(reader, header.pages, &mut pages)? {
        return Ok(Verdict::Unsound(Reason::Short, FaultPlace::File));
    }
    match check_listed(alloc, &pages, header) {
        Ok(()) => Ok(Verdict::Sound {
            records: header.records,
            pages: header.pages,
        }),
        Err(WalkFault::At(damage, place)) => Ok(Verdict::Unsound(Reason::of_damage(damage), place)),
        Err(WalkFault::Memory) => Err(CheckFault::Memory),
    }
}

/// Checks a file. As many pages are read as its first page counts, once and in order, and kept in
/// memory until the answer; a page that is counted and does not come takes none. The bytes behind
/// them are left to the reader.
///
/// Input where the reader fails, or is interrupted a thousand times in a row; Memory.
pub fn check_file<R: Read>(alloc: Global, reader: &mut R) -> Result<Verdict, CheckFault>
    ensures { ChecksReader (R.remaining reader.old) (R.remaining reader.new) result }
{
    let mut first = [0; PAGE_SIZE];
    if !read_page(reader, &mut first)? {
        return Ok(Verdict::Unsound(Reason::Short, FaultPlace::File));
    }
    match Header::read(&first) {
        None => Ok(Verdict::Unsound(refusal(reader, &first)?, FaultPlace::File)),
        Some(header) => check_accepted(alloc, reader, &first, &header),
    }
}
