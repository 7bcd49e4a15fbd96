//! The loading of a text into a file of a deck over a folder.
ghost use Rattle.std.specs.Prelude.{◌≡◌, [], true, false, codes, string_bytes, IfErr};
ghost use Rattle.record_text.specs.Whole.{IsWholeForm};
ghost use Rattle.command_line.specs.Loaded.{load_of, options_of, load_source, LoadsDescribed, IsShelfFault};
ghost use Rattle.command_line.specs.Loaded.{LoadsDeckBy};

use crate::devices::{Over, Seen};
use crate::encoded_text::read_encoded;
use crate::encoding::Encoding;
use crate::foreign_lines::ForeignLog;
use crate::kept_rejects::{keep_rejects, told_if_kept};
use crate::load_form::{FormKind, form_of};
use crate::told_load::{room_and_path, tell_end};
use command_support::{CommandFault, Outcome, deck_of, file_named};
use command_words::{Limits, LineOptions};
use file_control::FileDesc;
use folder_shelf::{CallRecord, Disk, FolderShelf, System};
use record_loading::{KeepsLines, Load, LoadOptions, ShelfEnd, ShelfFault, load_keeping};
use record_text::{Form, items_are_whole};
use std::alloc::Global;
use std::io::{Read, Write};
use streams::{Progress, StandardInput};

/// What is asked of a load: the name of a file in the deck, the path of a text, the words for its
/// form and its encoding, whether the file is there, which lines, the limits of its pages, and the path
/// of a new file for the lines that are rejected.
#[derive(Clone, Copy)]
pub struct Loading<'a> {
    pub file: &'a str,
    pub text: &'a str,
    pub form: &'a str,
    pub encoding: &'a str,
    pub into: bool,
    pub lines: LoadOptions,
    pub limits: Limits,
    pub rejects: Option<&'a str>,
}

/// Whether the input is asked to be the deck and the text.
pub fn are_both_input(deck: &str, text: &str) -> bool
    ensures both { result ≡ true → (deck.now ≡ codes "-") × (text.now ≡ codes "-") }
    ensures other { result ≡ false → deck.now ≡ codes "-" → text.now ≡ codes "-" → ⊥ }
{
    deck == "-" && text == "-"
}

/// Into what a flag says that records are loaded.
fn load_of(into: bool) -> Load
    ensures { result ≡ load_of into }
{
    if into { Load::Into } else { Load::New }
}

/// The bytes of a MiB.
const MIB: usize = 1 << 20;

/// Which lines the words ask for.
pub fn options_of(lines: LineOptions) -> LoadOptions
    ensures { result ≡ options_of lines }
{
    LoadOptions {
        skip: lines.skip,
        keep_going: lines.keep_going,
        replace: lines.replace,
        pad: lines.pad,
        memory: lines.memory as usize * MIB,
        sort: lines.sort,
    }
}

/// Why nothing was loaded, as the program tells it.
fn told_fault(fault: ShelfFault) -> CommandFault
    ensures { IsShelfFault result }
{
    match fault {
        ShelfFault::Input => CommandFault::Input,
        ShelfFault::Memory => CommandFault::Memory,
    }
}

/// Loads a text in a form into a file over a folder of a system whose record is empty. It is told how
/// many bytes of the text are written. The system that it gives back has what was asked and answered.
fn load_over_folder<S: System + Drop, D: Disk, R: KeepsLines, P: Progress>(
    system: S,
    alloc: Global,
    folder: String,
    file: &FileDesc,
    load: Load,
    form: &Form,
    options: LoadOptions,
    text: &[u8],
    limits: Limits,
    rejects: &mut R,
    progress: &mut P,
) -> (S, Result<ShelfEnd, CommandFault>)
    requires unasked { (S.state system).calls ≡ [] }
    requires whole { IsWholeForm form.now file.now.schema.greatest }
    ensures loads { LoadsDescribed D.Disk.unseen (string_bytes folder) file.now load
        (load_source form.now text.now options) (S.state result.0) result.1 }
    ensures fault { IfErr result.1 IsShelfFault }
{
    let shelf: FolderShelf<S, D> = FolderShelf::new(system, folder);
    let (shelf, end) = load_keeping(
        alloc,
        shelf,
        file.file,
        &file.schema,
        load,
        form,
        options,
        text,
        limits.pages,
        limits.frames,
        rejects,
        progress,
    );
    progress.wipe();
    let system = shelf.into_system();
    match end {
        Ok(end) => (system, Ok(end)),
        Err(fault) => (system, Err(told_fault(fault))),
    }
}

#[tactic(auto, using(command_support::proofs::DeckLemmas::not_there))]
/// Loads a text of this kind, in this encoding, into a file of the deck that the bytes are, over the files
/// of a folder, and tells how that ended. What was asked before the folder is entered is set aside. `Deck`,
/// `NoSuchFile`: nothing was written or changed, and no folder entered.
pub fn load_deck<
    S: System + Drop,
    D: Disk,
    I: Read,
    R: KeepsLines,
    P: Progress,
    E: Write,
    W: Write,
>(
    system: S,
    aside: &mut CallRecord,
    alloc: Global,
    bytes: &[u8],
    folder: String,
    kind: FormKind,
    encoding: Encoding,
    asked: Loading<'_>,
    input: &mut StandardInput<I>,
    rejects: &mut R,
    progress: &mut P,
    doubts: &mut E,
    out: &mut W,
) -> (S, Result<Outcome, CommandFault>)
    requires none_aside { aside.old.calls ≡ [] }
    ensures { LoadsDeckBy ⟦<Over<S, D, I, W> as Seen>⟧.devices system aside.new.calls result input.old
        bytes.now folder kind encoding asked.entry out.old out.new }
{
    let mut system = system;
    let deck = match deck_of(alloc, bytes) {
        Ok(deck) => deck,
        Err(fault) => return (system, Err(fault)),
    };
    let Some(file) = file_named(deck.files.as_slice(), asked.file) else {
        return (system, Err(CommandFault::NoSuchFile));
    };
    // This brings that the columns are the whole of a record.
    items_are_whole();
    let form = match form_of(alloc, kind, file) {
        Ok(form) => form,
        Err(fault) => return (system, Err(fault)),
    };
    let text = match read_encoded(&mut system, alloc, encoding, kind, asked.text, input) {
        Ok(text) => text,
        Err(fault) => return (system, Err(fault)),
    };
    let (room, path) = match room_and_path(alloc, folder.as_str(), file) {
        Ok(had) => had,
        Err(fault) => return (system, Err(fault)),
    };
    match keep_rejects(alloc, asked.rejects, &form, rejects) {
        Ok(()) => {}
        Err(fault) => return (system, Err(fault)),
    }
    system.exchange_record(aside);
    let mut told = ForeignLog::new(rejects, text.given.as_slice(), doubts);
    let (mut system, end) = load_over_folder::<S, D, _, P>(
        system,
        alloc,
        folder,
        file,
        load_of(asked.into),
        &form,
        asked.lines,
        text.list.as_slice(),
        asked.limits,
        &mut told,
        progress,
    );
    match end {
        Ok(end) => {
            told.tell_end(end);
            let told = tell_end(
                &mut system,
                alloc,
                path.as_str(),
                &file.schema,
                room,
                &end,
                out,
            );
            (system, told_if_kept(rejects, told))
        }
        Err(fault) => (system, Err(fault)),
    }
}
