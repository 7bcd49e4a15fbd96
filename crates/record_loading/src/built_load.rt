//! A load of a new file that is built: its pages are filled one after another, and no WRITE is made.
ghost use Rattle.std.specs.Prelude.{◌≡◌, ◌<◌, ◌+◌, ◌^◌, ◌++◌, [], false, length};
ghost use Rattle.page_store.specs.ShelfState.{HasUnit, unit_name};
ghost use Rattle.record_text.specs.Header.{header_lines};
ghost use Rattle.record_text.specs.Lines.{form_header};
ghost use Rattle.record_text.specs.Whole.{IsWholeForm};
ghost use Rattle.record_loading.specs.BuiltLoad.{TriesToBuild, HasNoNameUnlessEnded, IsLinesEnd};
ghost use Rattle.record_loading.specs.BuiltLoad.{may_be_built, end_after_try, counted_of, IsDetached};
ghost use Rattle.record_loading.specs.Loading.{listing_by};

use crate::end::{LinesEnd, LoadEnd};
use crate::line_records::LineRecords;
use crate::loading::{blank_area, header_of};
use crate::options::LoadOptions;
use crate::passing::behind_lines;
use crate::shelf_end::{ShelfEnd, ShelfFault};
use file_building::{FileBuilt, build_closed};
use io_state::{Fault, FileName, Status};
use page_store::Shelf;
use record_layout::Schema;
use record_text::{Form, LineMistake, behind_header, header_lines};
use std::alloc::Global;
use std::num::NonZeroUsize;
use streams::Progress;

/// What came of a try to build the file of a load.
#[derive(Clone, Copy, Debug, PartialEq, Eq)]
pub enum BuildTry {
    /// None was made, and each file is as it was.
    Unmade,
    /// The file was begun, and what is there of it is refused.
    Begun,
    /// The file was built, and the load ended so.
    Ended(LoadEnd),
}

/// Whether a load with these options may be built: it ends at the first line that it cannot take, and
/// memory for the entries is granted.
pub fn may_be_built(options: LoadOptions) -> bool
    ensures { result ≡ may_be_built options }
{
    !options.keep_going && !options.replace && options.memory > 0
}

/// The number of the line after those of so many records.
fn number_after(form: &Form, skip: u64, records: u64) -> u64
    ensures { header_lines form.now + skip + records + 1 < 2 ^ 64
        → result ≡ header_lines form.now + skip + records + 1 }
{
    // A line that was read has a number of 64 bits.
    header_lines(form)
        .saturating_add(skip)
        .saturating_add(records)
        .saturating_add(1)
}

/// How lines ended of which so many gave a record, and of which the next has this mistake, if one was met.
fn end_of_lines(form: &Form, skip: u64, records: u64, mistake: Option<LineMistake>) -> LinesEnd
    ensures { IsLinesEnd form.now skip records mistake result }
{
    match mistake {
        Some(mistake) => LinesEnd::NoRecord {
            line: number_after(form, skip, records),
            mistake,
        },
        None => LinesEnd::Loaded {
            records,
            replaced: 0,
            rejected: 0,
        },
    }
}

/// How many records a file has that was built, and what its closing is answered by.
fn counted(built: Result<FileBuilt, Fault>) -> Option<(u64, Status)>
    ensures { result ≡ counted_of built }
{
    match built {
        Ok(FileBuilt::Closed { records }) => Some((records, Status::Successful)),
        Ok(FileBuilt::Unclosed { records, .. }) => Some((records, Status::PermanentError)),
        Ok(FileBuilt::OutOfOrder | FileBuilt::Clash) | Err(_) => None,
    }
}

/// Tries to build the file of unit 0 from lines, which are all of the text after its header.
fn build_unit<S: Shelf, P: Progress>(
    alloc: Global,
    shelf: &mut S,
    schema: &Schema,
    form: &Form,
    options: LoadOptions,
    text: &[u8],
    lines: &[u8],
    area: Vec<u8>,
    limit: u32,
    frames: NonZeroUsize,
    progress: &mut P,
) -> BuildTry
    requires unit { HasUnit (S.state shelf.old) 0 }
    requires whole { IsWholeForm form.now schema.now.greatest }
    requires lines { text.now ≡ form_header form.now ++ lines.now }
    requires area { length area.items ≡ schema.now.greatest }
    requires stops { options.keep_going ≡ false }
    ensures { TriesToBuild (unit_name (S.state shelf.old) 0) schema.now
        (listing_by form.now text.now options []) (S.state shelf.old) (S.state shelf.new) result }
{
    let rest = behind_lines(lines, options.skip);
    let mut source = LineRecords::new(form, options, schema, text, rest, area, progress);
    let built = build_closed(
        alloc,
        shelf,
        0,
        schema,
        &mut source,
        frames,
        limit,
        options.memory,
    );
    let Some((records, closed)) = counted(built) else {
        return BuildTry::Begun;
    };
    let lines = end_of_lines(form, options.skip, records, source.mistake);
    BuildTry::Ended(LoadEnd::Opened { lines, closed })
}

/// Takes the name from the shelf where the load has not ended. Where that fails, it ends: the file was
/// begun, so no load may be told that changed nothing.
fn detach<S: Shelf>(shelf: &mut S, tried: BuildTry) -> BuildTry
    ensures file { (S.state shelf.new).file ≡ (S.state shelf.old).file }
    ensures honest { (S.state shelf.new).is_honest ≡ (S.state shelf.old).is_honest }
    ensures tried { IsDetached tried result }
    ensures names { HasNoNameUnlessEnded (S.state shelf.new).names result }
{
    match tried {
        BuildTry::Ended(end) => BuildTry::Ended(end),
        BuildTry::Unmade | BuildTry::Begun => match shelf.attach(&[]) {
            Ok(()) => tried,
            Err(_) => BuildTry::Ended(LoadEnd::NotOpened {
                status: Status::PermanentError,
            }),
        },
    }
}

/// Tries to build the file of a name, which has none, from lines, which are all of the text after its
/// header. Where it is not built, no name is attached afterwards.
fn build_named<S: Shelf, P: Progress>(
    alloc: Global,
    shelf: &mut S,
    name: FileName,
    schema: &Schema,
    form: &Form,
    options: LoadOptions,
    text: &[u8],
    lines: &[u8],
    area: Vec<u8>,
    limit: u32,
    frames: NonZeroUsize,
    progress: &mut P,
) -> BuildTry
    requires names { (S.state shelf.old).names ≡ [] }
    requires whole { IsWholeForm form.now schema.now.greatest }
    requires lines { text.now ≡ form_header form.now ++ lines.now }
    requires area { length area.items ≡ schema.now.greatest }
    requires stops { options.keep_going ≡ false }
    ensures tries { TriesToBuild name.bytes schema.now (listing_by form.now text.now options [])
        (S.state shelf.old) (S.state shelf.new) result }
    ensures names { HasNoNameUnlessEnded (S.state shelf.new).names result }
{
    match shelf.attach(&[name]) {
        Ok(()) => {
            let tried = build_unit(
                alloc, shelf, schema, form, options, text, lines, area, limit, frames, progress,
            );
            detach(shelf, tried)
        }
        Err(_) => BuildTry::Unmade,
    }
}

/// Tries to load the lines of a text into a new file by building it, where the name has no file. Where it
/// is not built, no name is attached afterwards.
pub fn build_load<S: Shelf, P: Progress>(
    alloc: Global,
    shelf: &mut S,
    name: FileName,
    schema: &Schema,
    form: &Form,
    options: LoadOptions,
    text: &[u8],
    limit: u32,
    frames: NonZeroUsize,
    progress: &mut P,
) -> BuildTry
    requires names { (S.state shelf.old).names ≡ [] }
    requires whole { IsWholeForm form.now schema.now.greatest }
    ensures tries { TriesToBuild name.bytes schema.now (listing_by form.now text.now options [])
        (S.state shelf.old) (S.state shelf.new) result }
    ensures names { HasNoNameUnlessEnded (S.state shelf.new).names result }
{
    if !may_be_built(options) {
        return BuildTry::Unmade;
    }
    let Ok(header) = header_of(alloc, form) else {
        return BuildTry::Unmade;
    };
    let Ok(area) = blank_area(alloc, schema.greatest()) else {
        return BuildTry::Unmade;
    };
    let Some(lines) = behind_header(text, header.as_slice()) else {
        return BuildTry::Unmade;
    };
    build_named(
        alloc, shelf, name, schema, form, options, text, lines, area, limit, frames, progress,
    )
}

/// What is told of a load that began anew after its file was begun. Where OPEN was no success, or memory
/// was wanting before it, that is 30, since the file is no more as it was.
pub fn end_after_try(end: Result<ShelfEnd, ShelfFault>) -> ShelfEnd
    ensures { result ≡ end_after_try end }
{
    match end {
        Ok(ShelfEnd::Loaded(LoadEnd::NotOpened { .. })) | Err(_) => {
            ShelfEnd::Loaded(LoadEnd::NotOpened {
                status: Status::PermanentError,
            })
        }
        Ok(end) => end,
    }
}
