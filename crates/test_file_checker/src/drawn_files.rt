//! Files that a library leaves behind drawn calls.

ghost use Rattle.indexed_file.specs.Clients.{IsOpenWith, IsNotOpen};

use crate::checks::assert_equal_for;
use crate::drawn::{Draw, draws_record, draws_schema};
use crate::files::{bytes_of, name};
use crate::readers::records_of;
use indexed_file::{Added, Library, Seen};
use io_state::Key;
use memory_shelf::MemShelf;
use page_store::Shelf;
use record_layout::Schema;
use shelf_library::ShelfLibrary;
use std::alloc::Global;
use std::num::NonZeroUsize;
use std::process::Abort;

/// A new library over a shelf in memory, with the name of one file.
fn new_library(rt: &impl Abort, alloc: Global) -> ShelfLibrary<MemShelf>
    ensures { IsNotOpen (⟦<ShelfLibrary<MemShelf> as Library>⟧.shown.world result) 0 }
{
    let frames = NonZeroUsize::new(4).unwrap_or(NonZeroUsize::MIN);
    let mut library = ShelfLibrary::new(alloc, MemShelf::new(alloc), 1000, frames);
    let names = [name(rt)];
    library.attach(&names).expect(rt, "attached");
    library
}

/// One call that is drawn. It answers how many records there are then.
fn calls<L: Library>(
    rt: &impl Abort,
    library: &mut L,
    schema: &Schema,
    draw: &mut Draw,
    count: u64,
) -> u64
    requires { IsOpenWith (L.shown.world library.old) 0 schema.now }
    ensures { IsOpenWith (L.shown.world library.new) 0 schema.now }
{
    let record = draws_record(draw, schema);
    let record = record.as_slice();
    assert!(rt; usize::from(schema.least()) <= record.len());
    assert!(rt; record.len() <= usize::from(schema.greatest()));
    assert!(rt; schema.key_count() > 0);
    match draw.below(4) {
        0..2 => {
            let added = library.add(0, record).expect(rt, "an answer");
            count.saturating_add(u64::from(added != Added::Clash))
        }
        2 => {
            library.replace(0, record).expect(rt, "an answer");
            count
        }
        _ => {
            let prime: Key = schema.extract(record, 0);
            let is_removed = library.remove(0, &prime).expect(rt, "an answer");
            count.saturating_sub(u64::from(is_removed))
        }
    }
}

/// So many calls on a unit that is open, which is shut then.
fn runs<L: Library>(
    rt: &impl Abort,
    library: &mut L,
    schema: &Schema,
    draw: &mut Draw,
    count: u64,
) -> u64
    requires { IsOpenWith (L.shown.world library.old) 0 schema.now }
    ensures { IsNotOpen (L.shown.world library.new) 0 }
{
    let mut records = count;
    for _ in 0..draw.below(30) {
        records = calls(rt, library, schema, draw, records);
    }
    library.shut(0).expect(rt, "shut");
    records
}

/// Opens the file of a schema again. One that was shut stands.
fn reopens<L: Library>(rt: &impl Abort, library: &mut L, schema: &Schema)
    requires { IsNotOpen (L.shown.world library.old) 0 }
    ensures { IsOpenWith (L.shown.world library.new) 0 schema.now }
{
    match library.look(0).expect(rt, "an answer") {
        Seen::Sound(seen) => {
            assert!(rt; seen.same(schema));
            library.open(0).expect(rt, "open");
        }
        Seen::Absent | Seen::Unsound => panic!(rt; "the file is not sound"),
    }
}

/// Makes a file, and opens it again; each time there are drawn calls. It answers how many records are left.
fn makes<L: Library>(rt: &impl Abort, library: &mut L, schema: &Schema, draw: &mut Draw) -> u64
    requires { IsNotOpen (L.shown.world library.old) 0 }
{
    library.create(0, schema).expect(rt, "a new file");
    let count = runs(rt, library, schema, draw, 0);
    reopens(rt, library, schema);
    runs(rt, library, schema, draw, count)
}

fn leaves_a_sound_file(rt: &impl Abort, alloc: Global, draw: &mut Draw, file: u32) {
    let schema = draws_schema(rt, draw);
    let mut library = new_library(rt, alloc);
    let records = makes(rt, &mut library, &schema, draw);
    let bytes = bytes_of(rt, alloc, &mut library.into_shelf());
    let found = records_of(rt, alloc, bytes.as_slice());
    assert_equal_for(rt, file, found, Some(records));
}

/// What a library leaves of 250 files is sound, and has as many records as it was told.
fn leaves_sound_files(rt: &impl Abort, alloc: Global, seed: u64) {
    let mut draw = Draw { last: seed };
    for file in 0..250u32 {
        leaves_a_sound_file(rt, alloc, &mut draw, file);
    }
}

#[test]
fn drawn_files_are_sound_1974(rt: HostRuntime) {
    leaves_sound_files(&rt, rt.alloc(), 1974);
}

#[test]
fn drawn_files_are_sound_1985(rt: HostRuntime) {
    leaves_sound_files(&rt, rt.alloc(), 1985);
}

#[test]
fn drawn_files_are_sound_2002(rt: HostRuntime) {
    leaves_sound_files(&rt, rt.alloc(), 2002);
}

#[test]
fn drawn_files_are_sound_2023(rt: HostRuntime) {
    leaves_sound_files(&rt, rt.alloc(), 2023);
}
