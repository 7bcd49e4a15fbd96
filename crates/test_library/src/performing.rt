//! Verbs on one file, and the pages that they ask for.

ghost use Rattle.std.specs.Prelude.{◌≡◌, length};
ghost use Rattle.record_layout.specs.Schema.{Schema as Keys};
ghost use Rattle.verbs.specs.Fits.{HasOperands};
ghost use Rattle.test_library.specs.Ready.{IsReadyConnector};

use crate::checks::assert_equal_for;
use indexed_file::Library;
use io_state::{Access, FileName, FileStatement, Status};
use page_store::Shelf;
use shelf_library::ShelfLibrary;
use std::alloc::Global;
use std::num::NonZeroUsize;
use std::process::Abort;
use unit_calls::two_long_keys;
use verbs::Connector;

/// The bytes of a record.
const LENGTH: u16 = 240;

/// A connector that is closed, and a library over a shelf, whose units are forgotten, with the name of its
/// file.
pub fn begins<S: Shelf + Drop>(
    rt: &impl Abort,
    alloc: Global,
    shelf: S,
    frames: usize,
    access: Access,
) -> (Connector, ShelfLibrary<S>)
    ensures { IsReadyConnector result.0 (⟦<ShelfLibrary<S> as Library>⟧.shown.world result.1) }
{
    let mut shelf = shelf;
    shelf.attach(&[]).expect(rt, "attached");
    let frames = NonZeroUsize::new(frames).unwrap_or(NonZeroUsize::MIN);
    let mut library = ShelfLibrary::new(alloc, shelf, 4000, frames);
    let name = FileName::from("FILE").expect(rt, "a name");
    library.attach(&[name]).expect(rt, "attached");
    let schema = two_long_keys().expect(rt, "a schema");
    (Connector::new(access, false, schema), library)
}

/// The key of a READ or START is one of two.
fn has_operands(rt: &impl Abort, statement: &FileStatement)
    ensures { (schema : Keys) → length schema.keys ≡ 2 → HasOperands schema statement.now }
{
    match *statement {
        FileStatement::Read { key } => assert!(rt; key < 2),
        FileStatement::Start { key, .. } => assert!(rt; key < 2),
        _ => {}
    }
}

/// The most pages that a statement may ask for, by the heights of the trees; `reference` is the key of
/// reference. Those of OPEN and CLOSE are not counted.
fn most_asked<S: Shelf + Drop>(
    library: &ShelfLibrary<S>,
    statement: &FileStatement,
    reference: u8,
) -> Option<u64> {
    let height = |k| u64::from(library.height(0, k));
    match *statement {
        FileStatement::Open(_) | FileStatement::Close { .. } => None,
        FileStatement::ReadNext => Some(4 * height(reference) + height(0) + 1),
        FileStatement::Read { key } => Some(4 * height(key) + height(0) + 1),
        FileStatement::Start { key, .. } => Some(2 * height(key)),
        FileStatement::Write | FileStatement::Rewrite | FileStatement::Delete => {
            Some(32 * (height(0) + height(1) + 2))
        }
    }
}

/// Performs a statement, and answers its status with the pages that it asked for, which are so many at most,
/// also where it is refused. The statement begins the count, and not this test; OPEN and CLOSE do not, and
/// none are counted of them.
pub fn performs<S: Shelf + Drop>(
    rt: &impl Abort,
    connector: &mut Connector,
    library: &mut ShelfLibrary<S>,
    statement: &FileStatement,
    reference: u8,
    area: &mut [u8; 240],
) -> (Status, u64)
    requires { IsReadyConnector connector.old (⟦<ShelfLibrary<S> as Library>⟧.shown.world library.old) }
    ensures { IsReadyConnector connector.new (⟦<ShelfLibrary<S> as Library>⟧.shown.world library.new) }
{
    has_operands(rt, statement);
    let most = most_asked(library, statement, reference);
    let answer = connector.perform(library, 0, statement, LENGTH, area);
    let Some(most) = most else {
        return (answer.status, 0);
    };
    let asked = library.asked(0);
    assert_equal_for(rt, (*statement, asked, most), asked <= most, true);
    (answer.status, asked)
}
