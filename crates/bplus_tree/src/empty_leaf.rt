//! The page of a new tree.

ghost use Rattle.bplus_tree.specs.Changes.{CanWrite};
ghost use Rattle.bplus_tree.specs.Start.{StartsInPages};

use io_state::Fault;
use pages::Pages;
use tree_node::{NodeShape, write_leaf};

/// Writes a leaf without entries.
pub fn write_empty_leaf<P: Pages>(pages: &mut P, shape: NodeShape, page: u32) -> Result<(), Fault>
    requires { CanWrite P.shown pages.old }
    ensures { StartsInPages P.shown shape page pages.old pages.new result }
{
    write_leaf(pages.page_mut(page)?, shape);
    Ok(())
}
