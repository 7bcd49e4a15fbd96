//! Sessions over a library over a shelf.
ghost use Rattle.shelf_run.specs.SessionOnShelf.{ExactOnShelf};

use indexed_file::{GrowingLibrary, Library};
use page_store::GrowingShelf;
use serve::exact_session;
use shelf_library::ShelfLibrary;

/// Requests over a library over a shelf that had no unit at first, in a whole session or one at a
/// time: where no answer has told of a fault and the shelf has not lied, each is what the definitions
/// give, from all that the described files represented at first, and each file represents what these
/// leave its name to stand for. It does nothing.
pub fn exact_on_shelf<S: GrowingShelf + Drop>()
    ensures { ExactOnShelf (⟦<ShelfLibrary<S> as Library>⟧).shown
        (⟦<ShelfLibrary<S> as GrowingLibrary>⟧).keeps_open (λ library. S.state library.shelf) }
{
    exact_session::<ShelfLibrary<S>>();
}
