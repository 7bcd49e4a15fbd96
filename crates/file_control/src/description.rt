//! The description of a deck, read whole.
ghost use Rattle.std.specs.Prelude.{◌≡◌, List, IfOk, IfErr};
ghost use Rattle.deck_parser.specs.Fault.{GivesOrRefuses, GivesOrTells};
ghost use Rattle.deck_parser.specs.OneReading.{Determines};
ghost use Rattle.deck_parser.specs.Word.{Word};
ghost use Rattle.file_control.specs.declared.description.Description.{Description};
ghost use Rattle.file_control.specs.Description.{FileDesc as File, LengthItem as Digits};
ghost use Rattle.file_control.specs.Whole.{Describe, IsDescription};
ghost use Rattle.file_control.specs.NoFiles.{DescribeNone};
ghost use Rattle.file_control.specs.FirstFault.{IsContentsFault, IsDescriptionFault, TellsFault};
ghost use Rattle.file_control.specs.Described.{AreDescribed};

use crate::data_names::DataNames;
use crate::described_files::DescribedFiles;
use crate::files::{DeckFiles, ItemList, check_items, files_of, items_of};
use deck_entries::{Divisions, read_divisions};
use deck_parser::{
    DeckFault, Expected, FaultCause, ParseRefusal, Parser, WantedClass, WantedList, WordPlace,
    Words,
};
use std::alloc::Global;

/// The files of a deck in the order of their SELECT entries, its 77-level items, and how many words
/// were read: the word behind them is PROCEDURE.
#[derive(Drop)]
pub struct Description {
    pub files: DeckFiles,
    pub items: ItemList,
    pub words: usize,
}

/// Files and 77-level items.
#[derive(Drop)]
struct Contents {
    files: DeckFiles,
    items: ItemList,
}

/// What the divisions describe.
fn contents_of(alloc: Global, divisions: &Divisions) -> Result<Contents, ParseRefusal>
    ensures contents { IfOk result (λ contents. Describe divisions.now contents.files contents.items) }
    ensures none { IfErr result (DescribeNone divisions.now) }
    ensures fault { TellsFault (IsContentsFault divisions.now) result }
{
    let entries = divisions.entries.as_slice();
    let descriptions = divisions.descriptions.as_slice();
    let mut names = DataNames::new(alloc);
    let files = files_of(
        alloc,
        entries,
        descriptions,
        divisions.storage.as_slice(),
        &mut names,
    )?;
    let described = DescribedFiles {
        entries,
        descriptions,
    };
    check_items(&described, divisions.storage.as_slice(), names)?;
    let items = items_of(alloc, divisions.storage.as_slice())?;
    Ok(Contents { files, items })
}

/// The description that the words up to PROCEDURE are, or why they are none, as `read_description`.
pub fn describe(alloc: Global, words: &Words<'_>) -> Result<Description, ParseRefusal>
    ensures description { GivesOrRefuses (IsDescription words.now) result }
    ensures fault { TellsFault (IsDescriptionFault words.now) result }
{
    let mut parser = Parser::new(words);
    let divisions = read_divisions(&mut parser, alloc)?;
    if !parser.sees(b"PROCEDURE") {
        let wanted = Expected::Words(WantedClass::Word);
        return Err(parser.fault(FaultCause::Expected(wanted)));
    }
    let contents = contents_of(alloc, &divisions)?;
    let Contents { files, items } = contents;
    Ok(Description {
        files,
        items,
        words: words.len().saturating_sub(parser.left()),
    })
}

/// The description that the words up to PROCEDURE are, or the first fault. The faults of the words
/// come first, in their order: code 2 for a word with which no deck goes on, 4 for a clause, a name
/// or a file name a second time, 6 for a ninth entry, a ninth alternate key and a number of more
/// than 18 digits, 5 for a literal that is no file name, 3 for a description of a file without an
/// entry. Then those of each file, in the order of the entries, and of the 77-level items: 3 for a
/// name that nothing has, 7 for items, lengths and keys that are none, 4 for a data name that is
/// there already. Or code 8.
pub fn read_description(alloc: Global, words: &Words<'_>) -> Result<Description, DeckFault>
    ensures { GivesOrTells (IsDescription words.now) result }
{
    Ok(describe(alloc, words)?)
}

/// What is tried at the word of a place and does not fit, where the words up to PROCEDURE are read.
pub fn wanted_in_description(alloc: Global, words: &Words<'_>, place: WordPlace) -> WantedList {
    let mut parser = Parser::noting(words, place);
    if read_divisions(&mut parser, alloc).is_ok() {
        let _ = parser.sees(b"PROCEDURE");
    }
    parser.wanted()
}

/// The files and items of a description are what a run can rely on.
pub fn are_described()
    ensures { (words : List Word) (d : Description) → IsDescription words d → AreDescribed d.files d.items }
{}

/// No words have two descriptions.
pub fn one_description()
    ensures { Determines IsDescription }
{}
