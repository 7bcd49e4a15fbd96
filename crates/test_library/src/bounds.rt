//! The pages that a call has asked for.

ghost use Rattle.indexed_file.specs.Clients.{IsOpenWith};

use indexed_file::Library;
use record_layout::Schema;
use std::process::Abort;
use unit_calls::{asked, restarts};

/// The pages that the call before has asked for, which are so many at most. They are counted anew then.
pub fn asked_at_most<L: Library>(
    rt: &impl Abort,
    library: &mut L,
    schema: &Schema,
    most: u64,
) -> u64
    requires { IsOpenWith (L.shown.world library.old) 0 schema.now }
    ensures { IsOpenWith (L.shown.world library.new) 0 schema.now }
{
    let pages = asked(library, 0, schema);
    assert!(rt; pages <= most, "{pages} pages, and not {most}");
    restarts(library, 0, schema);
    pages
}
