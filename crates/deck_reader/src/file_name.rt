//! Names of files and of their records.
ghost use Rattle.deck_parser.specs.Reading.{ReadsRule};
ghost use Rattle.deck_reader.specs.StatementRules.{file};
ghost use Rattle.deck_reader.specs.Parts.{record_named};

use crate::names::Names;
use deck_parser::{FaultCause, NameOf, ParseRefusal, Parser, Unknown};

/// The name of a file.
#[tactic(auto, unfolding(crate::specs::StatementRules::file))]
pub fn file(parser: &mut Parser<'_>, names: &Names<'_>) -> Result<usize, ParseRefusal>
    ensures { ReadsRule (file names.now) parser.old result parser.new }
{
    let place = parser.place();
    let name = parser.name(NameOf::File)?;
    match names.file(name.as_str()) {
        Some(file) => Ok(file),
        None => Err(place.fault(FaultCause::Unknown(Unknown::File(names.named(&name))))),
    }
}

/// The name of a file's record.
#[tactic(auto, unfolding(crate::specs::Parts::record_named))]
pub fn record_name(parser: &mut Parser<'_>, names: &Names<'_>) -> Result<usize, ParseRefusal>
    ensures { ReadsRule (record_named names.now) parser.old result parser.new }
{
    let place = parser.place();
    let name = parser.name(NameOf::Record)?;
    match names.record(name.as_str()) {
        Some(file) => Ok(file),
        None => Err(place.fault(FaultCause::Unknown(Unknown::Record(names.named(&name))))),
    }
}
