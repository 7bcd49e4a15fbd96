//! The loading.
ghost use Rattle.std.specs.Prelude.{◌≡◌, ◌≤◌, [], IsTrue, None, IfOk, OnOk, OnErr, ⊤};
ghost use Rattle.record_text.specs.Whole.{IsWholeForm};
ghost use Rattle.record_loading.specs.Loading.{listing, load_text, asked_load};
ghost use Rattle.shelf_run.specs.Files.{reads_of};
ghost use Rattle.record_loading.specs.SortedLoad.{LoadsTextInto};
ghost use Rattle.record_loading.specs.Loaded.{EndsLoad, LoadsInto, LoadsTold, LoadsAnyhow, TellsIfThere};
ghost use Rattle.record_loading.specs.BuiltLoad.{LoadsAgain};

use crate::built_load::{BuildTry, build_load, end_after_try};
use crate::end::Load;
use crate::loading::load_records;
use crate::options::LoadOptions;
use crate::rejected::{RejectLog, RejectedLine};
use crate::shelf_end::{ShelfEnd, ShelfFault, end_of, fault_by};
use crate::sorting::sorted_text;
use io_state::{Fault, FileName};
use page_store::Shelf;
use record_layout::Schema;
use record_text::Form;
use shelf_library::ShelfLibrary;
use std::alloc::Global;
use std::num::NonZeroUsize;
use streams::Progress;

/// Whether a name has a file. No name is attached afterwards.
fn is_there<S: Shelf>(shelf: &mut S, name: FileName) -> Result<bool, Fault>
    ensures answer { IfOk result (TellsIfThere (S.state shelf.old) (S.state shelf.new) name.bytes) }
    ensures names { OnOk result ((S.state shelf.new).names ≡ []) }
    ensures file { (S.state shelf.new).file ≡ (S.state shelf.old).file }
    ensures honest { IsTrue (S.state shelf.new).is_honest → IsTrue (S.state shelf.old).is_honest }
{
    shelf.attach(&[name])?;
    let there = shelf.exists(0)?;
    shelf.attach(&[])?;
    Ok(there)
}

/// Loads records over a shelf to which no name is attached, whether or not the name has a file.
fn load_over<S: Shelf, P: Progress, R: RejectLog>(
    alloc: Global,
    shelf: S,
    name: FileName,
    schema: &Schema,
    load: Load,
    form: &Form,
    options: LoadOptions,
    text: &[u8],
    limit: u32,
    frames: NonZeroUsize,
    rejects: &mut R,
    progress: &mut P,
) -> (S, Result<ShelfEnd, ShelfFault>)
    requires names { (S.state shelf).names ≡ [] }
    requires limit { 16 ≤ limit }
    requires whole { IsWholeForm form.now schema.now.greatest }
    ensures untold { OnErr result.1 (rejects.new ≡ rejects.old) }
    ensures loads { LoadsAnyhow R.tells rejects.old rejects.new
        (asked_load name.bytes schema.now load form.now text.now options) S.state shelf result }
{
    let mut library = ShelfLibrary::new(alloc, shelf, limit, frames);
    let end = load_records(
        alloc,
        &mut library,
        name,
        schema,
        load,
        form,
        options,
        text,
        rejects,
        progress,
    );
    (library.into_shelf(), end_of(end))
}

/// Loads records into a new file that was begun by a try to build it, and is refused.
fn load_again<S: Shelf, P: Progress, R: RejectLog>(
    alloc: Global,
    shelf: S,
    name: FileName,
    schema: &Schema,
    form: &Form,
    options: LoadOptions,
    text: &[u8],
    limit: u32,
    frames: NonZeroUsize,
    rejects: &mut R,
    progress: &mut P,
) -> (S, ShelfEnd)
    requires names { (S.state shelf).names ≡ [] }
    requires limit { 16 ≤ limit }
    requires whole { IsWholeForm form.now schema.now.greatest }
    ensures { LoadsAgain R.tells rejects.old rejects.new name.bytes schema.now
        (load_text form.now text.now options) (S.state shelf) (S.state result.0) result.1 }
{
    let (shelf, end) = load_over(
        alloc,
        shelf,
        name,
        schema,
        Load::New,
        form,
        options,
        text,
        limit,
        frames,
        rejects,
        progress,
    );
    (shelf, end_after_try(end))
}

/// Loads records into a new file, where the name has none: the file is built where it can be, or is written
/// record by record.
fn load_absent<S: Shelf, P: Progress, R: RejectLog>(
    alloc: Global,
    shelf: S,
    name: FileName,
    schema: &Schema,
    form: &Form,
    options: LoadOptions,
    text: &[u8],
    limit: u32,
    frames: NonZeroUsize,
    rejects: &mut R,
    progress: &mut P,
) -> (S, Result<ShelfEnd, ShelfFault>)
    requires names { (S.state shelf).names ≡ [] }
    requires limit { 16 ≤ limit }
    requires whole { IsWholeForm form.now schema.now.greatest }
    requires absent { IsTrue (S.state shelf).is_honest → reads_of (S.state shelf) name.bytes ≡ None }
    ensures untold { OnErr result.1 (rejects.new ≡ rejects.old) }
    ensures loads { LoadsTold R.tells rejects.old rejects.new
        (asked_load name.bytes schema.now Load.New form.now text.now options) S.state shelf result }
{
    let mut shelf = shelf;
    match build_load(
        alloc, &mut shelf, name, schema, form, options, text, limit, frames, progress,
    ) {
        BuildTry::Ended(end) => (shelf, Ok(ShelfEnd::Loaded(end))),
        BuildTry::Begun => {
            let (shelf, end) = load_again(
                alloc, shelf, name, schema, form, options, text, limit, frames, rejects, progress,
            );
            (shelf, Ok(end))
        }
        BuildTry::Unmade => load_over(
            alloc,
            shelf,
            name,
            schema,
            Load::New,
            form,
            options,
            text,
            limit,
            frames,
            rejects,
            progress,
        ),
    }
}

/// Loads records into a new file, where the name has none.
fn load_new<S: Shelf, P: Progress, R: RejectLog>(
    alloc: Global,
    shelf: S,
    name: FileName,
    schema: &Schema,
    form: &Form,
    options: LoadOptions,
    text: &[u8],
    limit: u32,
    frames: NonZeroUsize,
    rejects: &mut R,
    progress: &mut P,
) -> (S, Result<ShelfEnd, ShelfFault>)
    requires limit { 16 ≤ limit }
    requires whole { IsWholeForm form.now schema.now.greatest }
    ensures untold { OnErr result.1 (rejects.new ≡ rejects.old) }
    ensures loads { LoadsTold R.tells rejects.old rejects.new
        (asked_load name.bytes schema.now Load.New form.now text.now options) S.state shelf result }
{
    let mut shelf = shelf;
    match is_there(&mut shelf, name) {
        Ok(true) => (shelf, Ok(ShelfEnd::IsThere)),
        Ok(false) => load_absent(
            alloc, shelf, name, schema, form, options, text, limit, frames, rejects, progress,
        ),
        Err(fault) => (shelf, Err(fault_by(fault))),
    }
}

/// Loads the records of lines that are not sorted first, as `load_lines_on_shelf` does.
fn load_lines<S: Shelf, P: Progress, R: RejectLog>(
    alloc: Global,
    shelf: S,
    name: FileName,
    schema: &Schema,
    load: Load,
    form: &Form,
    options: LoadOptions,
    text: &[u8],
    limit: u32,
    frames: NonZeroUsize,
    rejects: &mut R,
    progress: &mut P,
) -> (S, Result<ShelfEnd, ShelfFault>)
    requires names { (S.state shelf).names ≡ [] }
    requires limit { 16 ≤ limit }
    requires whole { IsWholeForm form.now schema.now.greatest }
    ensures untold { OnErr result.1 (rejects.new ≡ rejects.old) }
    ensures loads { LoadsTold R.tells rejects.old rejects.new
        (asked_load name.bytes schema.now load form.now text.now options) S.state shelf result }
{
    match load {
        Load::New => load_new(
            alloc, shelf, name, schema, form, options, text, limit, frames, rejects, progress,
        ),
        Load::Into => load_over(
            alloc,
            shelf,
            name,
            schema,
            Load::Into,
            form,
            options,
            text,
            limit,
            frames,
            rejects,
            progress,
        ),
    }
}

/// Loads the record of each line of a text in a form into the file of a name on a shelf to which no
/// name is attached, and gives the shelf back. A file has at most `limit` pages of 4,096 bytes, of
/// which at most `frames` are held in memory while it is open.
///
/// A new file is made only where the name has none: otherwise that is told, and each file is as it
/// was. Where the shelf is honest, the file represents what OPEN, the WRITEs and CLOSE leave of
/// what it represented. The first lines behind the header are skipped, so many as `options` says. The
/// first line that is the line of no record of the file, or whose WRITE is no success, ends a load, and
/// what was written before stays. Where `options` says that it is to keep going, a line that is no
/// record's, or whose WRITE is refused for its keys, with 22, is told and passed over. Where it says that
/// records are to be replaced, a REWRITE follows such a WRITE before that. No crash leaves a false file,
/// where none could be left before. After each line it is told how many bytes of the text are done.
///
/// Where `options` says that the lines are to be sorted, all of this is so of the sorted text.
///
/// `Input`: the device failed when it was asked for the file. `Memory`. Nothing was changed then.
pub fn load_lines_on_shelf<S: Shelf, P: Progress, R: RejectLog>(
    alloc: Global,
    shelf: S,
    name: FileName,
    schema: &Schema,
    load: Load,
    form: &Form,
    options: LoadOptions,
    text: &[u8],
    limit: u32,
    frames: NonZeroUsize,
    rejects: &mut R,
    progress: &mut P,
) -> (S, Result<ShelfEnd, ShelfFault>)
    requires names { (S.state shelf).names ≡ [] }
    requires limit { 16 ≤ limit }
    requires whole { IsWholeForm form.now schema.now.greatest }
    ensures untold { OnErr result.1 (rejects.new ≡ rejects.old) }
    ensures loads { LoadsTextInto R.tells rejects.old rejects.new
        (asked_load name.bytes schema.now load form.now text.now options) S.state shelf result }
{
    if !options.sort {
        return load_lines(
            alloc, shelf, name, schema, load, form, options, text, limit, frames, rejects, progress,
        );
    }
    let Ok(sorted) = sorted_text(alloc, schema, form, options, text) else {
        return (shelf, Err(ShelfFault::Memory));
    };
    load_lines(
        alloc,
        shelf,
        name,
        schema,
        load,
        form,
        options,
        sorted.as_slice(),
        limit,
        frames,
        rejects,
        progress,
    )
}

/// A log that shows nothing.
#[derive(Drop)]
struct Unheard;

impl RejectLog for Unheard {
    ghost tells = { λ _ _ _ _. ⊤ };

    fn tell(&mut self, _rejected: RejectedLine, _line: &[u8]) {}
}

/// The same, where no line is skipped, and the first that is the line of no record of the file, or whose
/// WRITE is no success, ends the load.
///
/// `Input`: the device failed when it was asked for the file. `Memory`. Nothing was changed then.
pub fn load_on_shelf<S: Shelf, P: Progress>(
    alloc: Global,
    shelf: S,
    name: FileName,
    schema: &Schema,
    load: Load,
    form: &Form,
    text: &[u8],
    limit: u32,
    frames: NonZeroUsize,
    progress: &mut P,
) -> (S, Result<ShelfEnd, ShelfFault>)
    requires names { (S.state shelf).names ≡ [] }
    requires limit { 16 ≤ limit }
    requires whole { IsWholeForm form.now schema.now.greatest }
    ensures { LoadsInto name.bytes (EndsLoad name.bytes schema.now load (listing form.now text.now))
        (S.state shelf) (S.state result.0) result.1 }
{
    let usual = LoadOptions {
        skip: 0,
        keep_going: false,
        replace: false,
        pad: false,
        memory: 0,
        sort: false,
    };
    load_lines(
        alloc,
        shelf,
        name,
        schema,
        load,
        form,
        usual,
        text,
        limit,
        frames,
        &mut Unheard,
        progress,
    )
}
