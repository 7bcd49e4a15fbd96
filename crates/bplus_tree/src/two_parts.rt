//! A page that has changed, and part of which may have gone to a new page.

ghost use Rattle.std.specs.Prelude.{◌≡◌, ◌≢◌, ◌+◌, ◌≤◌, IsTrue, IfOk, option_map};
ghost use Rattle.bplus_tree.specs.Changes.{CanWrite, WhereSound, Alters, TakesOne};
ghost use Rattle.bplus_tree.specs.Split.{Splits, WritesParts};

use io_state::Fault;
use pages::{PAGE_SIZE, Pages, store};
use tree_node::{Separator, TreeKey};

/// Writes a page whole; and where it was split at a key, its upper part to a page that was free, to
/// which the separator leads that is answered.
///
/// Full where no page is available. After a fault the page may be written and its upper part not.
pub fn write_parts<P: Pages>(
    pages: &mut P,
    page: u32,
    lower: &[u8; PAGE_SIZE],
    upper: &[u8; PAGE_SIZE],
    key: Option<TreeKey>,
) -> Result<Option<Separator>, Fault>
    requires { CanWrite P.shown pages.old }
    ensures alters { Alters P.shown TakesOne 3 (WritesParts page lower.now upper.now key) pages.old
        pages.new result }
    ensures key { IfOk result (λ up. option_map (λ separator. separator.key) up ≡ key) }
{
    match key {
        None => {
            store(pages, page, lower)?;
            Ok(None)
        }
        Some(key) => {
            let child = write_split(pages, page, lower, upper)?;
            Ok(Some(Separator { key, child }))
        }
    }
}

/// Writes the two parts of a page, the upper one to a page that was free, which is answered.
fn write_split<P: Pages>(
    pages: &mut P,
    page: u32,
    lower: &[u8; PAGE_SIZE],
    upper: &[u8; PAGE_SIZE],
) -> Result<u32, Fault>
    requires { CanWrite P.shown pages.old }
    ensures split { WhereSound P.shown pages.old pages.new (Splits page lower.now upper.now result) }
    ensures writes { TakesOne P.shown 3 pages.old pages.new result }
{
    let right = pages.take()?;
    store(pages, page, lower)?;
    store(pages, right, upper)?;
    Ok(right)
}
