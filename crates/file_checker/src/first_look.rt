//! What the first page says of a file, before any other page is looked at.

ghost use Rattle.std.specs.Prelude.{◌≤◌};
ghost use Rattle.file_checker.specs.FirstLook.{HasAllowed, IsFirstLook, OnFirstPage};

use crate::verdict::Reason;
use byteorder::{BigEndian, ByteOrder};
use open_file::Header;
use pages::PAGE_SIZE;

/// Where the first page counts the pages, itself among them.
const PAGES: usize = 12;

const PAGES_END: usize = 16;

/// The first byte of a file whose gate is closed.
const CLOSED: u8 = b'C';

/// A file is refused by its first page, or has the pages that a header counts.
#[derive(Drop)]
pub enum FirstLook {
    Refused(Reason),
    Accepted(Header),
}

/// What the first page says of a file of so many bytes.
pub fn first_look(size: u64, first: &[u8; PAGE_SIZE]) -> FirstLook
    requires { 4096 ≤ size }
    ensures look { OnFirstPage size first.now (λ bytes. IsFirstLook bytes result) }
    ensures allowed { HasAllowed result }
{
    let pages = BigEndian::read_u32(&first[PAGES..PAGES_END]);
    if size < u64::from(pages) * 4096 {
        return FirstLook::Refused(Reason::Short);
    }
    match Header::read(first) {
        Some(header) => FirstLook::Accepted(header),
        None => {
            if first[0] != CLOSED {
                return FirstLook::Refused(Reason::Gate);
            }
            FirstLook::Refused(Reason::Header)
        }
    }
}
