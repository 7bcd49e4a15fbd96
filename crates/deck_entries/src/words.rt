//! Words that stand for one another.
ghost use Rattle.deck_parser.specs.Rule.{optional};
ghost use Rattle.deck_parser.specs.Notation.{the, ◌∣◌, eaten};
ghost use Rattle.deck_parser.specs.Reading.{ReadsAs, ReadsRule, Stops};
ghost use Rattle.deck_entries.specs.Divisions.{division_heading};

use deck_parser::{ParseRefusal, Parser};

/// Takes one of two words.
#[tactic(auto, unfolding(deck_parser::specs::Notation::the))]
pub fn expect_one(
    parser: &mut Parser<'_>,
    first: &'static [u8],
    second: &'static [u8],
) -> Result<(), ParseRefusal>
    ensures { ReadsRule (the first.now ∣ the second.now) parser.old result parser.new }
{
    if parser.eat(first) {
        return Ok(());
    }
    parser.expect(second)
}

/// Takes one of two words if it is next.
#[tactic(auto, unfolding(deck_parser::specs::Notation::the))]
pub fn eat_one(
    parser: &mut Parser<'_>,
    first: &'static [u8],
    second: &'static [u8],
) -> Result<bool, ParseRefusal>
    ensures reads { ReadsAs eaten (optional (the first.now ∣ the second.now)) parser.old result parser.new }
    ensures stops { Stops (optional (the first.now ∣ the second.now)) parser.old result }
{
    if parser.sees_one_of(&[first, second]) {
        expect_one(parser, first, second)?;
        return Ok(true);
    }
    Ok(false)
}

/// Takes the heading of a division or section.
#[tactic(auto, unfolding(deck_parser::specs::Notation::the))]
pub fn heading(
    parser: &mut Parser<'_>,
    first: &'static [u8],
    second: &'static [u8],
) -> Result<(), ParseRefusal>
    ensures { ReadsRule (division_heading first.now second.now) parser.old result parser.new }
{
    parser.expect(first)?;
    parser.expect(second)?;
    parser.period()
}
