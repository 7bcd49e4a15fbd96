//! The entries of an index of an alternate key, copied one after another.

ghost use Rattle.std.specs.Prelude.{◌≡◌, false};
ghost use Rattle.open_file.specs.Lent.{LendsToChange};
ghost use Rattle.file_building.specs.CopyFault.{KeepsCopying};
ghost use Rattle.file_building.specs.CopiedEntries.{CanCopyEntry, CopiesNextEntry, CopiesIndex};
ghost use Rattle.file_building.specs.CopiedEntries.{CanPushBytes, PutsEntry, EndsEntries};

use crate::copy_fault::CopyFault;
use crate::walk::TreeWalk;
use key_index::{AltEntry, AltIndex};
use pages::Pages;
use std::alloc::Global;
use tree_building::AltBuilder;
use tree_node::Entry;

/// An index with the entries of this one, so many.
///
/// `Reading`: Device; Damage where an entry is amiss, or there are more or fewer. `Writing`: Device;
/// Full where no page is left; Memory.
pub fn copy_alternate<P: Pages, Q: Pages>(
    alloc: Global,
    index: &AltIndex,
    records: u64,
    from: &mut P,
    to: &mut Q,
) -> Result<AltIndex, CopyFault>
    requires ready { P.shown.IsReady from.old }
    requires target { LendsToChange Q.shown to.old }
    ensures copies { CopiesIndex P.shown Q.shown index.now records from.old from.new to.old to.new result }
    ensures keeps { KeepsCopying P.shown Q.shown false from.old from.new to.old to.new result }
{
    let key = index.tree.shape().key;
    let mut builder = AltBuilder::new(alloc, key, index.width, index.prime);
    let mut walk = TreeWalk::new(index.tree);
    for _ in 0..records {
        copy_entry(index, &mut walk, from, to, &mut builder)?;
    }
    end_entries(alloc, &mut walk, from, to, builder)
}

/// Looks that there is no other entry, and ends the index.
fn end_entries<P: Pages, Q: Pages>(
    alloc: Global,
    walk: &mut TreeWalk,
    from: &mut P,
    to: &mut Q,
    builder: AltBuilder,
) -> Result<AltIndex, CopyFault>
    requires ready { P.shown.IsReady from.old }
    requires target { LendsToChange Q.shown to.old }
    ensures ends { EndsEntries P.shown Q.shown walk.old builder from.old from.new to.old to.new result }
    ensures keeps { KeepsCopying P.shown Q.shown false from.old from.new to.old to.new result }
{
    if let Err(fault) = walk.end(from) {
        return Err(CopyFault::Reading(fault));
    }
    match builder.finish(alloc, to) {
        Ok(index) => Ok(index),
        Err(fault) => Err(CopyFault::Writing(fault)),
    }
}

/// The next entry of the index is read, and put behind those before it.
fn copy_entry<P: Pages, Q: Pages>(
    index: &AltIndex,
    walk: &mut TreeWalk,
    from: &mut P,
    to: &mut Q,
    builder: &mut AltBuilder,
) -> Result<(), CopyFault>
    requires { CanCopyEntry P.shown Q.shown index.now walk.old builder.old from.old to.old }
    ensures copies { CopiesNextEntry P.shown Q.shown index.now walk.old walk.new builder.old builder.new
        from.old from.new to.old to.new result }
    ensures keeps { KeepsCopying P.shown Q.shown false from.old from.new to.old to.new result }
{
    let mut bytes = Entry::new();
    match walk.next(from, &mut bytes) {
        Ok(()) => put_entry(index, to, builder, bytes.as_slice()),
        Err(fault) => Err(CopyFault::Reading(fault)),
    }
}

/// Puts the entry of these bytes behind those before it.
fn put_entry<Q: Pages>(
    index: &AltIndex,
    to: &mut Q,
    builder: &mut AltBuilder,
    bytes: &[u8],
) -> Result<(), CopyFault>
    requires { CanPushBytes Q.shown index.now builder.old bytes.now to.old }
    ensures { PutsEntry Q.shown index.now to.old to.new builder.old builder.new bytes.now result }
{
    let entry = AltEntry::read(bytes, usize::from(index.width), usize::from(index.prime));
    match builder.push(to, &entry) {
        Ok(()) => Ok(()),
        Err(fault) => Err(CopyFault::Writing(fault)),
    }
}
