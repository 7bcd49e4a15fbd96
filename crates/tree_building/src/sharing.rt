//! How the children that are left are shared out.

ghost use Rattle.std.specs.Prelude.{◌≤◌, ◌+◌, ◌/◌};
ghost use Rattle.tree_building.specs.Share.{IsShare};

/// How many of `rest` children the next node has, of which it has room for `room`: all of them where
/// they fit, half of them where they fit in two nodes, and else as many as fit.
pub fn share(rest: usize, room: usize) -> usize
    requires some { (room + 1) / 2 ≤ rest }
    ensures { IsShare room rest result }
{
    if rest <= room {
        rest
    } else if rest / 2 < room {
        rest - rest / 2
    } else {
        room
    }
}
