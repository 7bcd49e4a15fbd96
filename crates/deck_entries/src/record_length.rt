//! The lengths of records, as a RECORD clause says them.
ghost use Rattle.std.specs.Prelude.{◌≡◌};
ghost use Rattle.record_layout.specs.Picture.{number};
ghost use Rattle.record_layout.specs.Reading.{capped_size};
ghost use Rattle.deck_parser.specs.Reading.{ReadsRule};
ghost use Rattle.deck_entries.specs.FileDescription.{count, length_clause};

use deck_parser::{NameOf, ParseRefusal, Parser};
use io_state::Name;
use std::marker::Model;

/// The least and the greatest length of records, and the item that has the length of one. Lengths
/// are counted up to 4,001. Contracts see the item's name as its bytes.
#[derive(Drop)]
pub struct VaryingLength {
    pub least: u64,
    pub greatest: u64,
    pub item: Name,
}

impl Model for VaryingLength {
    ghost use Rattle.deck_entries.specs.RecordLength.{VaryingLength as Lengths};

    ghost Value = { Lengths };

    ghost view = { λ v. record { least = v.least; greatest = v.greatest; item = v.item.bytes } };
}

impl VaryingLength {
    ghost use Rattle.std.specs.Prelude.{◌≡◌};

    /// The name of the item.
    pub fn item_bytes(&self) -> &[u8]
        ensures { result.now ≡ self.now.item }
    {
        self.item.as_str().as_bytes()
    }
}

/// One length, which is counted up to 4,001, or lengths that vary.
#[derive(Drop)]
pub enum RecordLength {
    Fixed(u64),
    Varying(VaryingLength),
}

/// One past the greatest length of a record.
const CAP: u64 = 4001;

/// The number that digits stand for, or the cap where it is more.
pub fn number_of(digits: &[u8]) -> u64
    ensures { result ≡ capped_size (number digits.now) }
{
    let mut n: u64 = 0;
    for digit in digits {
        n = (n * 10 + u64::from(*digit).saturating_sub(48)).min(CAP);
    }
    n
}

/// A number of at most 18 digits, counted up to one past the greatest length of a record.
#[tactic(auto, unfolding(crate::specs::FileDescription::count))]
pub fn count(parser: &mut Parser<'_>) -> Result<u64, ParseRefusal>
    ensures { ReadsRule count parser.old result parser.new }
{
    let digits = parser.digits()?;
    Ok(number_of(digits.as_str().as_bytes()))
}

/// What stands behind RECORD.
#[tactic(auto, unfolding(crate::specs::FileDescription::length_clause, deck_parser::specs::Notation::the))]
pub fn length_clause(parser: &mut Parser<'_>) -> Result<RecordLength, ParseRefusal>
    ensures { ReadsRule length_clause parser.old result parser.new }
{
    if !parser.sees_one_of(&[b"IS", b"VARYING"]) {
        parser.eat(b"CONTAINS");
        let length = count(parser)?;
        parser.eat(b"CHARACTERS");
        return Ok(RecordLength::Fixed(length));
    }
    parser.eat(b"IS");
    parser.expect(b"VARYING")?;
    parser.eat(b"IN");
    parser.eat(b"SIZE");
    parser.eat(b"FROM");
    let least = count(parser)?;
    parser.expect(b"TO")?;
    let greatest = count(parser)?;
    parser.eat(b"CHARACTERS");
    parser.expect(b"DEPENDING")?;
    parser.eat(b"ON");
    let item = parser.name(NameOf::LengthItem)?;
    Ok(RecordLength::Varying(VaryingLength {
        least,
        greatest,
        item,
    }))
}
