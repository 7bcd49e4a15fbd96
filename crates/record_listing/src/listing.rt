//! The list of a file.
ghost use Rattle.std.specs.Prelude.{◌≡◌, ◌<◌, length, IsTrue, IsFalse, OnOk};
ghost use Rattle.indexed_file.specs.World.{holding_at, schema_at, is_open, is_looked};
ghost use Rattle.indexed_file.specs.Calls.{Keeps, NamesFile};
ghost use Rattle.record_listing.specs.Listing.{list_end_of, EndsOpen, EndsSound, EndsAttached, EndsNamed};
ghost use Rattle.record_listing.specs.Listing.{HasFileOf, HasShutUnit, LeavesListed, NamesStay, TellsWhy};
ghost use Rattle.record_listing.specs.Listing.{TrueFor};
ghost use Rattle.record_listing.specs.Reading.{CanListFile};

use crate::asked::Asked;
use crate::end::{ListEnd, ListFault, end_by};
use crate::rows::{RowsFault, write_rows};
use indexed_file::{Library, Seen};
use io_state::{Fault, FileName};
use record_layout::Schema;
use record_text::Form;
use std::alloc::Global;
use std::io::Write;

/// How a list ends whose lines were written or not, and whose file was closed or not.
fn end_of(written: Result<(), RowsFault>, shut: Result<(), Fault>) -> Result<ListEnd, ListFault>
    ensures { result ≡ list_end_of written shut }
{
    match written {
        Ok(()) => match shut {
            Ok(()) => Ok(ListEnd::Listed),
            Err(fault) => end_by(fault),
        },
        Err(RowsFault::Library(fault)) => end_by(fault),
        Err(RowsFault::Output) => Err(ListFault::Output),
    }
}

/// Lists the open file of unit 0, and closes it.
fn list_open<L: Library, W: Write>(
    alloc: Global,
    lib: &mut L,
    asked: Asked,
    form: &Form,
    greatest: u16,
    out: &mut W,
) -> Result<ListEnd, ListFault>
    requires { CanListFile L.shown lib.old asked.key greatest }
    ensures ends { EndsOpen L.shown lib.old lib.new form.now asked (W.contents out.old)
        (W.contents out.new) result }
    ensures leaves { LeavesListed L.shown (NamesFile 0 (L.shown.world lib.old) (L.shown.world lib.old))
        lib.old
        lib.new result }
    ensures memory { result ≡ Err ListFault.Memory → IsFalse L.shown.may_want_memory
        → W.contents out.new ≡ W.contents out.old }
{
    let written = write_rows(alloc, lib, asked, form, greatest, out);
    let shut = lib.shut(0);
    end_of(written, shut)
}

/// Lists the file of unit 0 that the look just before found sound, with this schema.
fn list_sound<L: Library, W: Write>(
    alloc: Global,
    lib: &mut L,
    asked: Asked,
    form: &Form,
    schema: &Schema,
    out: &mut W,
) -> Result<ListEnd, ListFault>
    requires attached { 0 < length (L.shown.world lib.old).units }
    requires looked { IsTrue (is_looked (holding_at (L.shown.world lib.old) 0)) }
    requires schema { schema_at (L.shown.world lib.old) 0 ≡ schema.now }
    ensures ends { EndsSound L.shown lib.old lib.new form.now asked schema.now (W.contents out.old)
        (W.contents out.new) result }
    ensures leaves { LeavesListed L.shown (HasFileOf L.shown lib.old schema.now) lib.old lib.new result }
    ensures memory { result ≡ Err ListFault.Memory → IsFalse L.shown.may_want_memory
        → W.contents out.new ≡ W.contents out.old }
{
    if usize::from(asked.key) >= schema.key_count() {
        return Ok(ListEnd::NoKey);
    }
    match lib.open(0) {
        Ok(()) => list_open(alloc, lib, asked, form, schema.greatest(), out),
        Err(fault) => end_by(fault),
    }
}

/// Lists the file of unit 0, which is closed.
fn list_attached<L: Library, W: Write>(
    alloc: Global,
    lib: &mut L,
    asked: Asked,
    form: &Form,
    out: &mut W,
) -> Result<ListEnd, ListFault>
    requires { HasShutUnit L.shown lib.old }
    ensures ends { EndsAttached L.shown lib.old lib.new form.now asked (W.contents out.old)
        (W.contents out.new) result }
    ensures leaves { LeavesListed L.shown (Unit {0}) lib.old lib.new result }
    ensures memory { result ≡ Err ListFault.Memory → IsFalse L.shown.may_want_memory
        → W.contents out.new ≡ W.contents out.old }
{
    match lib.look(0) {
        Ok(Seen::Absent) => Ok(ListEnd::Absent),
        Ok(Seen::Unsound) => Ok(ListEnd::Unsound),
        Ok(Seen::Sound(schema)) => list_sound(alloc, lib, asked, form, &schema, out),
        Err(fault) => end_by(fault),
    }
}

/// Writes the lines of the records of a file that are asked for in a form, in the order of the key,
/// and closes the file. The library has this name attached then, and no other.
///
/// `Input`: the device failed. `Output`: the writer refused a line. A part of the lines may have been
/// written then, from the first one on. `Memory`: the same; but nothing was written where the library
/// itself wants no memory once the file is open.
pub fn list_records<L: Library, W: Write>(
    alloc: Global,
    lib: &mut L,
    name: FileName,
    asked: Asked,
    form: &Form,
    out: &mut W,
) -> Result<ListEnd, ListFault>
    ensures ends { EndsNamed L.shown name.bytes lib.old lib.new form.now asked (W.contents out.old)
        (W.contents out.new) result }
    ensures named { TrueFor L.shown name.bytes lib.old lib.new
        (NamesStay (L.shown.world lib.old) (L.shown.world lib.new)) }
    ensures closed { OnOk result (IsFalse (is_open (holding_at (L.shown.world lib.new) 0))) }
    ensures cause { TellsWhy L.shown name.bytes lib.old lib.new result }
    ensures memory { result ≡ Err ListFault.Memory → IsFalse L.shown.may_want_memory
        → W.contents out.new ≡ W.contents out.old }
    ensures keeps { Keeps L.shown lib.old lib.new }
{
    match lib.attach(&[name]) {
        Ok(()) => list_attached(alloc, lib, asked, form, out),
        Err(fault) => end_by(fault),
    }
}
