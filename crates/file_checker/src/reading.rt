//! The pages of a file, as a reader gives them.

ghost use Rattle.std.specs.Prelude.{◌≡◌, ◌≤◌, true, false, [], ◌∷◌, ◌++◌, IfOk, IfErr};
ghost use Rattle.std.specs.Prelude.{OnOk, length};
ghost use Rattle.std.specs.Io.KnownBytes.{IsAtEnd};
ghost use Rattle.file_checker.specs.Bytes.{TakesPart, ReadsPageOrEnds, SkipsOrEnds, ComesWhole, FindsTooFew};
ghost use Rattle.file_checker.specs.Bytes.{BreaksOffAt};

use crate::verdict::CheckFault;
use pages::PAGE_SIZE;
use std::io::{ErrorKind, Read};

/// So many interrupted reads in a row are a fault of the input.
const MOST_INTERRUPTED: u32 = 1000;

/// Reads a part, and answers how many bytes came: none at the end.
fn read_part<R: Read>(reader: &mut R, part: &mut [u8]) -> Result<usize, CheckFault>
    ensures { TakesPart (R.remaining reader.old) (R.remaining reader.new) part.old part.new result }
{
    for _ in 0..MOST_INTERRUPTED {
        match reader.read(part) {
            Ok(n) => return Ok(n),
            Err(error) => {
                if error.kind() != ErrorKind::Interrupted {
                    return Err(CheckFault::Input);
                }
            }
        }
    }
    Err(CheckFault::Input)
}

/// Reads a page, and answers whether there were enough bytes for it.
pub fn read_page<R: Read>(reader: &mut R, page: &mut [u8; PAGE_SIZE]) -> Result<bool, CheckFault>
    ensures { ReadsPageOrEnds page.new (R.remaining reader.old) (R.remaining reader.new) result }
{
    let mut at = 0;
    'more: while at < PAGE_SIZE {
        let n = read_part(reader, &mut page[at..])?;
        if n == 0 {
            return Ok(false);
        }
        at += n;
    }
    Ok(true)
}

/// Reads so many pages, which nobody keeps, and answers whether there were enough bytes for them.
pub fn skip_pages<R: Read>(reader: &mut R, count: u32) -> Result<bool, CheckFault>
    ensures { SkipsOrEnds count (R.remaining reader.old) (R.remaining reader.new) result }
{
    let mut page = [0; PAGE_SIZE];
    for _ in 0..count {
        if !read_page(reader, &mut page)? {
            return Ok(false);
        }
    }
    Ok(true)
}

/// Has room for a page more in a list that is to have so many in the end: for twice as many as it
/// has, but for no more than these.
fn make_room(pages: &mut Vec<[u8; PAGE_SIZE]>, count: usize) -> Result<(), CheckFault>
    ensures same { pages.new.items ≡ pages.old.items }
    ensures memory { IfErr result (λ fault. fault ≡ CheckFault.Memory) }
{
    let len = pages.len();
    if len < pages.capacity() || count <= len {
        return Ok(());
    }
    let more = len.max(1).min(count - len);
    pages.reserve_exact(more).map_err(|_| CheckFault::Memory)
}

/// Adds a page to a list.
pub fn push_page(pages: &mut Vec<[u8; PAGE_SIZE]>, page: [u8; PAGE_SIZE]) -> Result<(), CheckFault>
    ensures pushed { OnOk result (pages.new.items ≡ pages.old.items ++ page ∷ []) }
    ensures memory { IfErr result (λ fault. fault ≡ CheckFault.Memory) }
{
    pages.push(page).map_err(|_| CheckFault::Memory)
}

/// Reads pages behind those of the list until there are so many, and answers whether there were
/// enough bytes for them.
///
/// Memory is taken for pages that came, and not for those that are only counted.
pub fn read_pages<R: Read>(
    reader: &mut R,
    count: u32,
    pages: &mut Vec<[u8; PAGE_SIZE]>,
) -> Result<bool, CheckFault>
    requires { length pages.old.items ≤ count }
    ensures read { ComesWhole (R.remaining reader.old) (R.remaining reader.new) pages.old.items
        pages.new.items result }
    ensures many { IfOk result (λ whole. whole ≡ true → length pages.new.items ≡ count) }
    ensures short { FindsTooFew count (R.remaining reader.old) pages.old.items result }
    ensures end { IfOk result (λ whole. whole ≡ false → IsAtEnd (R.remaining reader.new)) }
    ensures fault { BreaksOffAt count (R.remaining reader.old) (R.remaining reader.new)
        pages.old.items result }
{
    let wanted = count as usize;
    let mut page = [0; PAGE_SIZE];
    'more: while pages.len() < wanted {
        if !read_page(reader, &mut page)? {
            return Ok(false);
        }
        make_room(pages, wanted)?;
        push_page(pages, page)?;
    }
    Ok(true)
}
