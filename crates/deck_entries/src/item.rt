//! The items of a record, as they are described.
ghost use Rattle.std.specs.Prelude.{◌≡◌, List, [], option_map};
ghost use Rattle.record_layout.specs.Layout.{Entry, entry_of_item};
ghost use Rattle.deck_parser.specs.Class.{begins};
ghost use Rattle.deck_parser.specs.Rule.{optional, each_behind};
ghost use Rattle.deck_parser.specs.Reading.{ReadsAs, ReadsRule, Stops};
ghost use Rattle.deck_entries.specs.FileDescription.{level, item_name, may_item_name, picture_clause};
ghost use Rattle.deck_entries.specs.FileDescription.{item, more_item};

use crate::record_length::number_of;
use crate::words::expect_one;
use deck_parser::{Expected, FaultCause, NameOf, ParseRefusal, Parser, WantedClass};
use io_state::Name;
use record_layout::Item;
use std::alloc::{AllocError, Global};
use std::marker::Model;

/// Data description entries, which contracts see as a list.
#[derive(Drop)]
pub struct Items {
    items: Vec<Item>,
}

impl Model for Items {
    ghost use Rattle.std.specs.Prelude.{List, map};
    ghost use Rattle.record_layout.specs.Layout.{Entry, entry_of_item};

    ghost Value = { List Entry };

    ghost view = { λ items. map entry_of_item items.items.items };
}

impl Items {
    ghost use Rattle.std.specs.Prelude.{◌≡◌, [], ◌∷◌, ◌++◌, map, OnOk};
    ghost use Rattle.record_layout.specs.Layout.{entry_of_item};

    pub fn new(alloc: Global) -> Self
        ensures { result ≡ [] }
    {
        Items {
            items: Vec::new(alloc),
        }
    }

    fn push(
        &mut self,
        level: u8,
        name: Option<Name>,
        picture: Option<Name>,
    ) -> Result<(), AllocError>
        ensures { OnOk result (self.new ≡ self.old ++ entry_of_item
            (record { level = level; name = name; picture = picture }) ∷ []) }
    {
        self.items.push(Item {
            level,
            name,
            picture,
        })?;
        Ok(())
    }

    /// The entries themselves.
    pub fn as_slice(&self) -> &[Item]
        ensures { map entry_of_item result.now ≡ self.now }
    {
        self.items.as_slice()
    }
}

#[tactic(auto, unfolding(crate::specs::FileDescription::level))]
fn level(parser: &mut Parser<'_>) -> Result<u8, ParseRefusal>
    ensures { ReadsRule level parser.old result parser.new }
{
    let place = parser.place();
    let digits = parser.level()?;
    let level = number_of(digits.as_str().as_bytes());
    if level > 99 {
        return Err(place.fault(FaultCause::Expected(Expected::Words(WantedClass::Level))));
    }
    Ok(level as u8)
}

#[tactic(auto, unfolding(crate::specs::FileDescription::item_name, deck_parser::specs::Notation::the, deck_parser::specs::Notation::name))]
fn item_name(parser: &mut Parser<'_>) -> Result<Option<Name>, ParseRefusal>
    ensures reads { ReadsAs (option_map (λ name. name.bytes)) item_name parser.old result parser.new }
    ensures stops { Stops item_name parser.old result }
{
    if parser.sees_name(NameOf::Item) {
        let name = parser.name(NameOf::Item)?;
        return Ok(Some(name));
    }
    parser.expect(b"FILLER")?;
    Ok(None)
}

#[tactic(auto, unfolding(crate::specs::FileDescription::may_item_name, crate::specs::FileDescription::item_name, deck_parser::specs::Notation::the, deck_parser::specs::Notation::name))]
fn may_item_name(parser: &mut Parser<'_>) -> Result<Option<Name>, ParseRefusal>
    ensures reads { ReadsAs (option_map (λ name. name.bytes)) may_item_name parser.old result parser.new }
    ensures stops { Stops may_item_name parser.old result }
{
    if parser.sees_name_or(NameOf::Item, b"FILLER") {
        return item_name(parser);
    }
    Ok(None)
}

#[tactic(auto, unfolding(crate::specs::FileDescription::picture_clause))]
pub fn picture_clause(parser: &mut Parser<'_>) -> Result<Name, ParseRefusal>
    ensures reads { ReadsAs (λ name. name.bytes) picture_clause parser.old result parser.new }
    ensures stops { Stops picture_clause parser.old result }
{
    expect_one(parser, b"PIC", b"PICTURE")?;
    parser.eat(b"IS");
    parser.picture()
}

#[tactic(auto, unfolding(crate::specs::FileDescription::picture_clause, deck_parser::specs::Notation::the))]
fn may_picture_clause(parser: &mut Parser<'_>) -> Result<Option<Name>, ParseRefusal>
    ensures reads { ReadsAs (option_map (λ name. name.bytes)) (optional picture_clause) parser.old result
        parser.new }
    ensures stops { Stops (optional picture_clause) parser.old result }
{
    if parser.sees_one_of(&[b"PIC", b"PICTURE"]) {
        let picture = picture_clause(parser)?;
        return Ok(Some(picture));
    }
    Ok(None)
}

#[tactic(auto, unfolding(crate::specs::FileDescription::item, crate::specs::FileDescription::level, crate::specs::FileDescription::may_item_name, crate::specs::FileDescription::item_name))]
fn item(parser: &mut Parser<'_>) -> Result<Item, ParseRefusal>
    ensures reads { ReadsAs entry_of_item item parser.old result parser.new }
    ensures stops { Stops item parser.old result }
{
    let level = level(parser)?;
    let name = may_item_name(parser)?;
    let picture = may_picture_clause(parser)?;
    parser.period()?;
    Ok(Item {
        level,
        name,
        picture,
    })
}

/// Whether an item comes next.
#[tactic(auto, unfolding(crate::specs::FileDescription::more_item, crate::specs::FileDescription::item, crate::specs::FileDescription::level))]
fn sees_item(parser: &Parser<'_>) -> bool
    ensures { (earlier : List Entry) → result ≡ begins (more_item earlier).starts parser.now }
{
    parser.sees_level()
}

/// The items with the next one.
#[tactic(auto, unfolding(crate::specs::FileDescription::more_item))]
fn one_more(parser: &mut Parser<'_>, items: Items) -> Result<Items, ParseRefusal>
    ensures { ReadsRule (more_item items) parser.old result parser.new }
{
    let item = item(parser)?;
    let mut items = items;
    items.push(item.level, item.name, item.picture)?;
    Ok(items)
}

/// One item or more.
pub fn read_items(parser: &mut Parser<'_>, alloc: Global) -> Result<Items, ParseRefusal>
    ensures { ReadsRule (each_behind more_item []) parser.old result parser.new }
{
    let mut items = one_more(parser, Items::new(alloc))?;
    'more: while sees_item(parser) {
        items = one_more(parser, items)?;
    }
    Ok(items)
}
