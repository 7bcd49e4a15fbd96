//! The verbs of a deck.
ghost use Rattle.std.specs.Prelude.{◌≡◌, ◌^◌, ◌<◌};
ghost use Rattle.deck_listing.specs.Verbs.{file_name_at, verb_of};

use deck_reader::Statement;
use file_control::FileDesc;
use io_state::{FileStatement, Name};
use std::marker::Model;

/// A verb: its number in the transcript, from 1, the name of its file, and what it does there.
#[derive(Drop)]
pub struct NumberedVerb {
    pub number: usize,
    pub file: Name,
    pub statement: FileStatement,
}

impl Model for NumberedVerb {
    ghost use Rattle.deck_listing.specs.Verbs.{NumberedVerb as Seen};

    ghost Value = { Seen };

    ghost view = { λ v. record { number = v.number; file = v.file.bytes; statement = v.statement } };
}

/// The name of the file of a place.
fn name_at(files: &[FileDesc], place: usize) -> Name
    ensures { result.bytes ≡ file_name_at files.now place }
{
    match files.get(place) {
        Some(file) => file.name,
        None => Name::new(),
    }
}

/// The verb that a statement is, if it is one, behind so many verbs.
pub fn verb_of(files: &[FileDesc], before: usize, statement: &Statement) -> Option<NumberedVerb>
    requires { before < 2 ^ 63 }
    ensures { result ≡ verb_of files.now before statement.now }
{
    match statement {
        Statement::Perform { file, statement } => Some(NumberedVerb {
            number: before + 1,
            file: name_at(files, *file),
            statement: *statement,
        }),
        _ => None,
    }
}
