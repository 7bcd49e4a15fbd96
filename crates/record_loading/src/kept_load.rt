//! A load that keeps the lines that it rejects.
ghost use Rattle.std.specs.Prelude.{◌≡◌, ◌≤◌, [], OnErr};
ghost use Rattle.record_text.specs.Whole.{IsWholeForm};
ghost use Rattle.record_loading.specs.Loading.{asked_load};
ghost use Rattle.record_loading.specs.KeptLoad.{LoadsKeeping};

use crate::end::Load;
use crate::keeping::KeepsLines;
use crate::options::LoadOptions;
use crate::shelf_end::{ShelfEnd, ShelfFault};
use crate::shelf_load::load_lines_on_shelf;
use io_state::FileName;
use page_store::Shelf;
use record_layout::Schema;
use record_text::Form;
use std::alloc::Global;
use std::num::NonZeroUsize;
use streams::Progress;

/// Loads the lines of a text into the file of a name on a shelf, as `load_lines_on_shelf` does. The log keeps
/// the bytes of the lines that are rejected, where a file for them is asked for.
///
/// `Input`: the device failed when it was asked for the file. `Memory`. Nothing was changed then.
pub fn load_keeping<S: Shelf, R: KeepsLines, P: Progress>(
    alloc: Global,
    shelf: S,
    name: FileName,
    schema: &Schema,
    load: Load,
    form: &Form,
    options: LoadOptions,
    text: &[u8],
    limit: u32,
    frames: NonZeroUsize,
    rejects: &mut R,
    progress: &mut P,
) -> (S, Result<ShelfEnd, ShelfFault>)
    requires names { (S.state shelf).names ≡ [] }
    requires limit { 16 ≤ limit }
    requires whole { IsWholeForm form.now schema.now.greatest }
    ensures unkept { OnErr result.1 (R.kept rejects.new ≡ R.kept rejects.old) }
    ensures loads { LoadsKeeping (R.kept rejects.old) (R.kept rejects.new)
        (asked_load name.bytes schema.now load form.now text.now options) S.state shelf result }
{
    // This brings that the bytes of each line that is told are kept.
    R::keeps_told();
    load_lines_on_shelf(
        alloc, shelf, name, schema, load, form, options, text, limit, frames, rejects, progress,
    )
}
