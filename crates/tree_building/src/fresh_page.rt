//! A page that was not in use, written whole.

ghost use Rattle.std.specs.Prelude.{◌≢◌, IfErr};
ghost use Rattle.bplus_tree.specs.Changes.{CanWrite, WhereSound};
ghost use Rattle.tree_building.specs.Fresh.{PutsPage, TakesExactly, TakesNewPages};

use io_state::Fault;
use pages::{PAGE_SIZE, Pages, store};

/// Takes a page, and writes these bytes to it.
///
/// Full where no page is available. A fault may leave a page taken, of which nothing is known.
pub fn put_page<P: Pages>(pages: &mut P, bytes: &[u8; PAGE_SIZE]) -> Result<u32, Fault>
    requires { CanWrite P.shown pages.old }
    ensures put { WhereSound P.shown pages.old pages.new (PutsPage bytes.now result) }
    ensures one { TakesExactly P.shown 1 pages.old pages.new result }
    ensures memory { IfErr result (λ fault. fault ≢ Fault.Memory) }
    ensures takes { TakesNewPages P.shown pages.old pages.new result }
{
    let n = pages.take()?;
    store(pages, n, bytes)?;
    Ok(n)
}
