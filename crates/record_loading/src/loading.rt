//! The loading of records into a file.
ghost use Rattle.std.specs.Prelude.{◌≡◌, replicate, OnErr, IfOk};
ghost use Rattle.indexed_file.specs.World.{OnlyAt};
ghost use Rattle.indexed_file.specs.Calls.{Keeps};
ghost use Rattle.deck_runner.specs.Beginning.{IsUntouched};
ghost use Rattle.record_text.specs.Lines.{form_header};
ghost use Rattle.record_text.specs.Whole.{IsWholeForm};
ghost use Rattle.record_listing.specs.Listing.{HasShutUnit, TrueFor};
ghost use Rattle.record_loading.specs.Loading.{load_text, asked_load, LoadsOver, OthersStay};
ghost use Rattle.record_loading.specs.Going.{HasAreaFor, LoadsUnitTold};
ghost use Rattle.record_loading.specs.Real.{AllStayReal};

use crate::end::{Load, LoadEnd, LoadFault, mode_of};
use crate::options::LoadOptions;
use crate::rejected::RejectLog;
use crate::writing::write_listing;
use indexed_file::Library;
use io_state::{Access, FileName, OpenMode};
use record_layout::Schema;
use record_text::{Form, append_header};
use std::alloc::{AllocError, Global};
use streams::Progress;
use verbs::Connector;

/// A record area of spaces.
pub fn blank_area(alloc: Global, size: u16) -> Result<Vec<u8>, AllocError>
    ensures { IfOk result (λ area. area.items ≡ replicate size 32) }
{
    let mut area = Vec::new(alloc);
    area.resize(usize::from(size), b' ')?;
    Ok(area)
}

/// What stands before the first record of a text in a form.
pub fn header_of(alloc: Global, form: &Form) -> Result<Vec<u8>, AllocError>
    ensures { IfOk result (λ header. header.items ≡ form_header form.now) }
{
    let mut header = Vec::new(alloc);
    append_header(&mut header, form)?;
    Ok(header)
}

/// Loads the records into the file of unit 0, which is closed.
fn load_attached<L: Library, P: Progress, R: RejectLog>(
    lib: &mut L,
    schema: &Schema,
    mode: OpenMode,
    area: &mut [u8],
    form: &Form,
    header: &[u8],
    options: LoadOptions,
    text: &[u8],
    rejects: &mut R,
    progress: &mut P,
) -> LoadEnd
    requires unit { HasShutUnit L.shown lib.old }
    requires area { HasAreaFor form.now schema.now area.old }
    requires header { header.now ≡ form_header form.now }
    ensures loads { LoadsUnitTold R.tells rejects.old rejects.new L.shown lib.old lib.new schema.now mode
        (load_text form.now text.now options) area.old result }
    ensures only { OnlyAt 0 (L.shown.world lib.old) (L.shown.world lib.new) }
    ensures keeps { Keeps L.shown lib.old lib.new }
{
    let least = schema.least();
    let mut connector = Connector::new(Access::Dynamic, false, schema.copy());
    let opened = connector.open(lib, 0, mode);
    if !opened.is_success() {
        return LoadEnd::NotOpened { status: opened };
    }
    let lines = write_listing(
        &mut connector,
        lib,
        least,
        area,
        form,
        header,
        options,
        text,
        rejects,
        progress,
    );
    let closed = connector.close(lib, 0, false);
    LoadEnd::Opened { lines, closed }
}

/// Opens the file of a name, writes the record of each line of a text in a form, and closes the
/// file. The library has this name attached then, and no other. The first lines behind the header
/// are skipped, so many as `options` says. The first line that is the line of no record of the file,
/// or whose WRITE is no success, ends it, and what was written before stays. Where `options` says that
/// it is to keep going, a line that is no record's, or whose WRITE is refused for its keys, with 22,
/// is told and passed over. Where it says that records are to be replaced, a REWRITE follows such a WRITE
/// before that: the line is refused with 22 only if that replaces nothing. Line 1 is no record's where
/// the form has a header and the text does not begin with it, which always ends it. Where a crash could
/// leave no false file before the load, it can leave none at any moment of it. After each line it is told
/// how many bytes of the text are done.
///
/// `Memory`: nothing was done.
pub fn load_records<L: Library, P: Progress, R: RejectLog>(
    alloc: Global,
    lib: &mut L,
    name: FileName,
    schema: &Schema,
    load: Load,
    form: &Form,
    options: LoadOptions,
    text: &[u8],
    rejects: &mut R,
    progress: &mut P,
) -> Result<LoadEnd, LoadFault>
    requires whole { IsWholeForm form.now schema.now.greatest }
    ensures loads { LoadsOver R.tells rejects.old rejects.new L.shown
        (asked_load name.bytes schema.now load form.now text.now options) lib.old lib.new result }
    ensures real { TrueFor L.shown name.bytes lib.old lib.new (AllStayReal L.shown lib.old lib.new) }
    ensures others { OthersStay name.bytes (L.shown.world lib.old) (L.shown.world lib.new) }
    ensures memory { OnErr result (IsUntouched L.shown lib.old lib.new) }
    ensures untold { OnErr result (rejects.new ≡ rejects.old) }
    ensures keeps { Keeps L.shown lib.old lib.new }
{
    let Ok(mut area) = blank_area(alloc, schema.greatest()) else {
        return Err(LoadFault::Memory);
    };
    let Ok(header) = header_of(alloc, form) else {
        return Err(LoadFault::Memory);
    };
    match lib.attach(&[name]) {
        Ok(()) => Ok(load_attached(
            lib,
            schema,
            mode_of(load),
            area.as_mut_slice(),
            form,
            header.as_slice(),
            options,
            text,
            rejects,
            progress,
        )),
        Err(_) => Err(LoadFault::Memory),
    }
}
