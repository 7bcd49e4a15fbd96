//! The root after an insert.

ghost use Rattle.std.specs.Prelude.{◌≡◌, ◌+◌, ◌<◌, ◌≤◌, IsTrue, IfOk};
ghost use Rattle.bplus_tree.specs.Changes.{CanWrite, Alters, TakesOne};
ghost use Rattle.bplus_tree.specs.Split.{HasWidth};
ghost use Rattle.bplus_tree.specs.Subtree.{at_page};
ghost use Rattle.bplus_tree.specs.GrowRoot.{GrowsRoot};

use crate::collapse::RootLevel;
use crate::grow::add_root;
use io_state::Fault;
use pages::Pages;
use tree_node::{NodeShape, Separator};

/// Puts a new root above the root where that was split.
///
/// Full where no page is available.
pub fn grow_root<P: Pages>(
    pages: &mut P,
    shape: NodeShape,
    root: u32,
    levels: u8,
    up: Option<Separator>,
) -> Result<RootLevel, Fault>
    requires low { levels < 19 }
    requires width { HasWidth shape.width up }
    requires pages { CanWrite P.shown pages.old }
    ensures alters { Alters P.shown TakesOne 2 (GrowsRoot (at_page shape levels root) up) pages.old
        pages.new result }
    ensures height { IfOk result (λ base. base.levels ≤ levels + 1) }
{
    match up {
        None => Ok(RootLevel { root, levels }),
        Some(separator) => {
            let root = add_root(pages, shape, root, &separator)?;
            Ok(RootLevel {
                root,
                levels: levels + 1,
            })
        }
    }
}
