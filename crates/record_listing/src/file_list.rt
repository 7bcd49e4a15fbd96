//! The list of the bytes.
ghost use Rattle.std.specs.Prelude.{◌≡◌, ℕ, IfOk, IfErr};
ghost use Rattle.file_checker.specs.Sound.{IsSound};
ghost use Rattle.record_listing.specs.FileList.{EndsFileList, EndsIn};

use crate::asked::Asked;
use crate::end::{ListEnd, ListFault};
use crate::file_bytes::FileBytes;
use crate::listing::list_records;
use file_checker::{Reason, Verdict, check_bytes};
use io_state::FileName;
use record_text::Form;
use shelf_library::ShelfLibrary;
use std::alloc::Global;
use std::io::Write;
use std::num::NonZeroUsize;

/// The most pages of a file: no call makes one.
const PAGES: u32 = 4_294_967_295;

/// How many pages are held at most.
const FRAMES: usize = 1024;

/// What became of the list of a file.
#[derive(Clone, Copy, Debug, PartialEq, Eq)]
pub enum FileList {
    /// The lines were written.
    Listed,
    /// The file does not have the key. Nothing was written.
    NoKey,
    /// The file is unsound, for the reason that a check tells. Nothing was written.
    Unsound(Reason),
}

/// Lists the records of bytes that are known to be sound. It is `list_file_as` without the check.
pub fn list_sound<W: Write>(
    alloc: Global,
    bytes: Vec<u8>,
    asked: Asked,
    form: &Form,
    out: &mut W,
) -> Result<FileList, ListFault>
    requires sound { (records : ℕ) × (pages : ℕ) × IsSound bytes.items records pages }
    ensures ends { EndsIn form.now bytes.items asked (W.contents out.old) (W.contents out.new) result }
    ensures memory { result ≡ Err ListFault.Memory → W.contents out.new ≡ W.contents out.old }
{
    let shelf = FileBytes::new(alloc, bytes);
    let frames = NonZeroUsize::new(FRAMES).unwrap_or(NonZeroUsize::MIN);
    let mut library = ShelfLibrary::new(alloc, shelf, PAGES, frames);
    match list_records(alloc, &mut library, FileName::new(), asked, form, out) {
        Ok(ListEnd::Listed) => Ok(FileList::Listed),
        Ok(ListEnd::NoKey) => Ok(FileList::NoKey),
        Ok(ListEnd::Absent | ListEnd::Unsound | ListEnd::Damaged) => unreachable!(),
        Err(fault) => Err(fault),
    }
}

/// Writes the lines of the records that are asked for of the file that has these bytes, in a form,
/// once a check has found them sound.
///
/// `Output`: the writer refused a line; a front of the list may have been written. `Memory`: nothing
/// was written. `Input` never comes: the bytes are there.
pub fn list_file_as<W: Write>(
    alloc: Global,
    bytes: Vec<u8>,
    asked: Asked,
    form: &Form,
    out: &mut W,
) -> Result<FileList, ListFault>
    ensures ends { EndsIn form.now bytes.items asked (W.contents out.old) (W.contents out.new) result }
    ensures memory { result ≡ Err ListFault.Memory → W.contents out.new ≡ W.contents out.old }
{
    match check_bytes(alloc, bytes.as_slice()) {
        Ok(Verdict::Sound { .. }) => list_sound(alloc, bytes, asked, form, out),
        Ok(Verdict::Unsound(reason, _)) => Ok(FileList::Unsound(reason)),
        Err(_) => Err(ListFault::Memory),
    }
}

/// Writes the lines of the records that are asked for of the file that has these bytes, as text,
/// once a check has found them sound. It is `list_file_as` with `Form::Text`.
pub fn list_file<W: Write>(
    alloc: Global,
    bytes: Vec<u8>,
    asked: Asked,
    out: &mut W,
) -> Result<FileList, ListFault>
    ensures ends { EndsFileList bytes.items asked (W.contents out.old) (W.contents out.new) result }
    ensures memory { result ≡ Err ListFault.Memory → W.contents out.new ≡ W.contents out.old }
{
    list_file_as(alloc, bytes, asked, &Form::Text, out)
}
