//! A page copied out, and written whole.

ghost use Rattle.std.specs.Prelude.{◌≡◌, OnErr};
ghost use Rattle.pages.specs.PageCalls.{ReadsPages};
ghost use Rattle.pages.specs.PageChanges.{StoresPage, CopiesOut, FindsNoDamage};

use crate::PAGE_SIZE;
use crate::pages::Pages;
use io_state::Fault;

/// Copies page `n` into `to`, which at a fault is as it was.
pub fn copy<P: Pages>(pages: &mut P, n: u32, to: &mut [u8; PAGE_SIZE]) -> Result<(), Fault>
    requires ready { P.shown.IsReady pages.old }
    ensures copied { CopiesOut n to.new (P.shown.state pages.old) (P.shown.state pages.new) result }
    ensures damage { FindsNoDamage n (P.shown.state pages.old) (P.shown.state pages.new) result }
    ensures reads { ReadsPages P.shown 1 pages.old pages.new result }
    ensures err { OnErr result (to.new ≡ to.old) }
{
    *to = *pages.page(n)?;
    Ok(())
}

/// Writes page `n` whole.
pub fn store<P: Pages>(pages: &mut P, n: u32, from: &[u8; PAGE_SIZE]) -> Result<(), Fault>
    requires ready { P.shown.IsReady pages.old }
    requires open { P.shown.CanChange pages.old }
    ensures { StoresPage P.shown n from.now pages.old pages.new result }
{
    *pages.page_mut(n)? = *from;
    Ok(())
}
