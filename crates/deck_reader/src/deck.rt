//! A deck, read whole.
ghost use Rattle.std.specs.Prelude.{◌≢◌, List, IfOk, IfErr};
ghost use Rattle.deck_parser.specs.Fault.{told, IsFault, IsTold, HasNoneIfTold, GivesOrRefuses};
ghost use Rattle.deck_parser.specs.OneReading.{Determines};
ghost use Rattle.deck_parser.specs.Word.{Word};
ghost use Rattle.file_control.specs.FirstFault.{TellsFault};
ghost use Rattle.deck_reader.specs.Names.{names_of};
ghost use Rattle.deck_reader.specs.Procedure.{IsProcedure};
ghost use Rattle.deck_reader.specs.declared.deck.Deck.{Deck};
ghost use Rattle.deck_reader.specs.Deck.{Spells, IsDeck};
ghost use Rattle.deck_reader.specs.CanBeRun.{CanBeRun};
ghost use Rattle.deck_reader.specs.FirstFault.{IsProcedureFault, IsWordsFault, IsFaultOfDeck};

use crate::division::{one_procedure, only_allowed, read_procedure};
use crate::names::Names;
use crate::placed::PlacedStatements;
use crate::places::StatementPlaces;
use crate::refusal::{DeckRefusal, wanted_of};
use crate::statement_list::StatementList;
use deck_parser::{ParseRefusal, scan};
use file_control::{
    DeckFault, DeckFiles, Description, FileDesc, ItemList, LengthItem, Words, are_described,
    describe, one_description, one_reading,
};
use std::alloc::Global;

/// The files of a deck in the order of their SELECT entries, its 77-level items in the order of
/// their entries, and its statements in their order and where they stand.
#[derive(Drop)]
pub struct Deck {
    pub files: DeckFiles,
    pub items: ItemList,
    pub statements: StatementList,
    pub places: StatementPlaces,
}

/// The statements that the words spell, with the names of these files and items, and their places.
fn statements_of(
    alloc: Global,
    files: &[FileDesc],
    items: &[LengthItem],
    words: &Words<'_>,
) -> Result<PlacedStatements, ParseRefusal>
    ensures statements { GivesOrRefuses (IsProcedure (names_of files.now items.now) words.now) result }
    ensures fault { TellsFault (IsProcedureFault (names_of files.now items.now) words.now) result }
{
    let names = Names::new(alloc, files, items)?;
    read_procedure(alloc, &names, words)
}

/// The deck that the words spell.
fn read(alloc: Global, words: &Words<'_>) -> Result<Deck, ParseRefusal>
    ensures deck { GivesOrRefuses (Spells words.now) result }
    ensures fault { TellsFault (IsWordsFault words.now) result }
{
    one_description();
    let description = describe(alloc, words)?;
    let Description {
        files,
        items,
        words: count,
    } = description;
    let rest = words.skip(count);
    let placed = statements_of(alloc, files.as_slice(), items.as_slice(), &rest)?;
    let PlacedStatements { statements, places } = placed;
    Ok(Deck {
        files,
        items,
        statements,
        places,
    })
}

/// A run can rely on whatever words spell.
fn every_deck_can_be_run()
    ensures { (words : List Word) (deck : Deck) → Spells words deck → CanBeRun deck }
{
    are_described();
    only_allowed();
}

/// The deck that the bytes are, or why they are none.
fn read_whole(alloc: Global, bytes: &[u8]) -> Result<Deck, ParseRefusal>
    ensures deck { GivesOrRefuses (IsDeck bytes.now) result }
    ensures runnable { IfOk result CanBeRun }
    ensures fault { TellsFault (IsFaultOfDeck bytes.now) result }
{
    one_reading();
    every_deck_can_be_run();
    let words = scan(bytes)?;
    read(alloc, &words)
}

/// The deck that the bytes are, or the first fault, by its code and its line: first those of the
/// words (1 and 6), then those of the words up to PROCEDURE, then those of the files and 77-level
/// items, and then those of the procedure. Or code 8 on line 0, for want of memory.
pub fn read_deck(alloc: Global, bytes: &[u8]) -> Result<Deck, DeckFault>
    ensures deck { IfOk result (IsDeck bytes.now) }
    ensures none { HasNoneIfTold (IsDeck bytes.now) result }
    ensures runnable { IfOk result CanBeRun }
    ensures told { IfErr result IsTold }
    ensures fault { IfErr result (λ fault. fault.code ≢ 8 → IsFaultOfDeck bytes.now fault) }
{
    Ok(read_whole(alloc, bytes)?)
}

/// The deck that the bytes are, or all that is known of the first fault, which `read_deck` tells.
pub fn read_deck_told(alloc: Global, bytes: &[u8]) -> Result<Deck, DeckRefusal>
    ensures deck { IfOk result (IsDeck bytes.now) }
    ensures none { IfErr result (λ refused. IsFault refused.refusal → (deck : Deck) → IsDeck bytes.now deck
        → ⊥) }
    ensures runnable { IfOk result CanBeRun }
    ensures fault { IfErr result (λ refused. IsFault refused.refusal
        → IsFaultOfDeck bytes.now (told refused.refusal)) }
{
    match read_whole(alloc, bytes) {
        Ok(deck) => Ok(deck),
        Err(refusal) => Err(DeckRefusal {
            refusal,
            wanted: wanted_of(alloc, bytes, refusal),
        }),
    }
}

/// No bytes are two decks.
pub fn one_deck()
    ensures { Determines IsDeck }
{
    one_reading();
    no_words_are_two_decks();
}

/// No words spell two decks.
pub fn no_words_are_two_decks()
    ensures { Determines Spells }
{
    one_description();
    one_procedure();
}
