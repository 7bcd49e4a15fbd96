//! A deck before its first statement: its files and length items in memory, and its file names
//! attached to a library.
ghost use Rattle.std.specs.Prelude.{◌≡◌, ◌≤◌, All, IfOk, IfErr, length, map};
ghost use Rattle.record_layout.specs.Area.{blank_area};
ghost use Rattle.record_layout.specs.Layout.{length_of};
ghost use Rattle.file_control.specs.Description.{file_names};
ghost use Rattle.indexed_file.specs.Calls.{Keeps};
ghost use Rattle.deck_reader.specs.CanBeRun.{CanBeRun};
ghost use Rattle.deck_runner.specs.Beginning.{running_before, IsUntouched, IsBegun};

use crate::line::LineText;
use crate::running_deck::RunningDeck;
use crate::running_file::RunningFile;
use crate::running_item::RunningItem;
use arrayvec::ArrayVec;
use deck_reader::Deck;
use file_control::{FileDesc, LengthItem};
use indexed_file::Library;
use io_state::{Fault, FileName};
use record_layout::Layout;
use std::alloc::{AllocError, Global};
use verbs::Connector;

/// The most files of a deck.
const FILE_LIMIT: usize = 8;

/// The names of the files of a deck.
type FileNames = ArrayVec<FileName, FILE_LIMIT>;

/// A record area, as it is before the first statement.
fn blank_area(alloc: Global, layout: &Layout) -> Result<Vec<u8>, AllocError>
    ensures blank { IfOk result (λ area. area.items ≡ blank_area (length_of layout.now) layout.now) }
    ensures length { IfOk result (λ area. length area.items ≡ length_of layout.now) }
{
    let mut area = Vec::new(alloc);
    area.resize(usize::from(layout.length()), 0)?;
    layout.blank(&mut area);
    Ok(area)
}

/// A file of a deck: its connector is closed, and its record area blank.
fn file_before(alloc: Global, file: &FileDesc) -> Result<RunningFile, AllocError>
    requires { file.now.schema.greatest ≡ length_of file.now.layout }
    ensures { IfOk result (λ running. running ≡ running_before file.now) }
{
    let area = blank_area(alloc, &file.layout)?;
    let connector = Connector::new(file.access, file.optional, file.schema.copy());
    Ok(RunningFile::new(file.name, file.depends_on, connector, area))
}

/// The files of a deck.
fn files_before(alloc: Global, files: &[FileDesc]) -> Result<Vec<RunningFile>, AllocError>
    requires { All (λ file. file.schema.greatest ≡ length_of file.layout) files.now }
    ensures { IfOk result (λ running. running.items ≡ map running_before files.now) }
{
    let mut running = Vec::new(alloc);
    for file in files {
        running.push(file_before(alloc, file)?)?;
    }
    Ok(running)
}

/// The length items of a deck: each has the value 0.
fn items_before(alloc: Global, items: &[LengthItem]) -> Result<Vec<RunningItem>, AllocError>
    requires { All (λ item. item.digits ≤ 18) items.now }
    ensures { IfOk result (λ running. running.items ≡ map (λ item.
        record { digits = item.digits; value = 0 }) items.now) }
{
    let mut running = Vec::new(alloc);
    for item in items {
        running.push(RunningItem::new(item.digits as u8))?;
    }
    Ok(running)
}

/// The names of the files of a deck.
fn names_of(files: &[FileDesc]) -> FileNames
    requires few { length files.now ≤ 8 }
    ensures { map (λ name. name.bytes) result.items ≡ file_names files.now }
{
    let mut names = FileNames::new();
    for file in files {
        names.push(file.file);
    }
    names
}

/// Makes the files and length items of a deck, and attaches its file names to the library. `Memory`
/// leaves what each name stands for, as a success does.
pub fn begin<L: Library>(alloc: Global, deck: &Deck, library: &mut L) -> Result<RunningDeck, Fault>
    requires { CanBeRun deck.now }
    ensures begun { IfOk result (λ begun. IsBegun L.shown library.old library.new deck.now begun) }
    ensures untouched { IsUntouched L.shown library.old library.new }
    ensures only_memory { IfErr result (λ fault. fault ≡ Fault.Memory) }
    ensures keeps { Keeps L.shown library.old library.new }
{
    let Ok(files) = files_before(alloc, deck.files.as_slice()) else {
        return Err(Fault::Memory);
    };
    let Ok(items) = items_before(alloc, deck.items.as_slice()) else {
        return Err(Fault::Memory);
    };
    let names = names_of(deck.files.as_slice());
    library.attach(names.as_slice())?;
    Ok(RunningDeck {
        files,
        items,
        line: LineText::new(),
    })
}
