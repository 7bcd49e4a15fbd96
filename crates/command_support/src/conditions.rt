//! The conditions of a list.
ghost use Rattle.std.specs.Prelude.{◌≡◌, ◌++◌, ◌∷◌, ◌≤◌, ◌-◌, ◌<◌, [], ℕ, List, length, map, option_map};
ghost use Rattle.std.specs.Prelude.{position, replicate, IfOk, IfSome, OnOk};
ghost use Rattle.std.specs.List.{list_all};
ghost use Rattle.std.specs.Char.{is_ascii_digit};
ghost use Rattle.record_layout.specs.Layout.{item_of};
ghost use Rattle.command_support.specs.Bound.{unescaped};
ghost use Rattle.command_support.specs.Conditions.{is_sign, or_equal, operator_in, said_of, said_in};
ghost use Rattle.command_support.specs.Conditions.{is_item_named, item_with_name, are_digits, full_value};
ghost use Rattle.command_support.specs.Conditions.{IsConditionBy, ComesOfWords, AddsOrRefuses, GivesConditions};
ghost use Rattle.command_support.specs.Conditions.{texts_of};

use crate::bound::next_byte;
use crate::condition_fault::ConditionFault;
use crate::fault::CommandFault;
use io_state::Name;
use record_layout::{Field, Placed};
use record_listing::{Condition, Operator};
use std::alloc::{AllocError, Global};

/// What the word of a condition says: the name of an item, a relation, and a value as it is written.
#[derive(Clone, Copy)]
pub struct ConditionWords<'a> {
    pub name: &'a [u8],
    pub operator: Operator,
    pub value: &'a [u8],
}

/// Whether a sign begins with this byte.
fn is_sign(byte: u8) -> bool
    ensures { result ≡ is_sign byte }
{
    byte == b'<' || byte == b'=' || byte == b'>'
}

/// A sign alone, or with an equal sign after it, and the text after that.
fn or_equal(alone: Operator, wide: Operator, text: &[u8]) -> (Operator, &[u8])
    ensures { (result.0, result.1.now) ≡ or_equal alone wide text.now }
{
    match text {
        [b'=', rest @ ..] => (wide, rest),
        _ => (alone, text),
    }
}

/// The relation for which the sign at the front of a text stands, and the text after it.
fn operator_in(text: &[u8]) -> Option<(Operator, &[u8])>
    ensures { option_map (λ found. (found.0, found.1.now)) result ≡ operator_in text.now }
{
    match text {
        [b'=', rest @ ..] => Some((Operator::Equal, rest)),
        [b'<', rest @ ..] => Some(or_equal(Operator::Less, Operator::NotGreater, rest)),
        [b'>', rest @ ..] => Some(or_equal(Operator::Greater, Operator::NotLess, rest)),
        _ => None,
    }
}

/// Where the first sign of a text begins, if there is one.
fn sign_at(text: &[u8]) -> Option<usize>
    ensures first { result ≡ position is_sign text.now }
    ensures within { IfSome result (λ at. at < length text.now) }
{
    text.iter().position(|byte| is_sign(*byte))
}

/// What the word of a condition says, if it has a sign.
fn said_in(word: &str) -> Option<ConditionWords<'_>>
    ensures { option_map said_of result ≡ said_in word.now }
{
    let text = word.as_bytes();
    let Some(at) = sign_at(text) else {
        return None;
    };
    let (name, rest) = text.split_at(at);
    match operator_in(rest) {
        Some((operator, value)) => Some(ConditionWords {
            name,
            operator,
            value,
        }),
        None => None,
    }
}

#[tactic(auto, using(crate::proofs::DeckLemmas::same_test))]
/// Whether an item has a name, in capitals or small letters.
fn is_item_named(own: &Option<Name>, name: &[u8]) -> bool
    ensures { result ≡ is_item_named name.now (option_map (λ name. name.bytes) own.now) }
{
    match own {
        Some(own) => own.as_str().as_bytes().eq_ignore_ascii_case(name),
        None => false,
    }
}

/// Where the item of a name stands, if there is one.
pub fn item_with_name(items: &[Placed], name: &[u8]) -> Option<Field>
    ensures { result ≡ item_with_name (map item_of items.now) name.now }
{
    for item in items {
        if is_item_named(&item.name, name) {
            return Some(item.field);
        }
    }
    None
}

/// The bytes for which a text stands.
fn value_in(alloc: Global, text: &[u8]) -> Result<Vec<u8>, AllocError>
    ensures { IfOk result (λ value. value.items ≡ unescaped text.now) }
{
    let mut value = Vec::new(alloc);
    let mut rest = text;
    'more: while let Some((byte, behind)) = next_byte(rest) {
        value.push(byte)?;
        rest = behind;
    }
    Ok(value)
}

/// Whether each of these bytes is a digit.
fn all_digits(bytes: &[u8]) -> bool
    ensures { result ≡ list_all is_ascii_digit bytes.now }
{
    bytes.iter().all(|byte| byte.is_ascii_digit())
}

/// Whether bytes are digits alone, at least one.
fn are_digits(bytes: &[u8]) -> bool
    ensures { result ≡ are_digits bytes.now }
{
    !bytes.is_empty() && all_digits(bytes)
}

/// Bytes with zeros before them, as many as there are to be.
fn after_zeros(alloc: Global, bytes: &[u8], size: u16) -> Result<Vec<u8>, AllocError>
    requires { length bytes.now ≤ size }
    ensures { IfOk result (λ full. full.items ≡ replicate (size - length bytes.now) 48 ++ bytes.now) }
{
    let mut full = Vec::new(alloc);
    full.resize(usize::from(size) - bytes.len(), b'0')?;
    full.extend_from_slice(bytes)?;
    Ok(full)
}

/// Bytes with spaces after them, as many as there are to be.
fn before_spaces(alloc: Global, bytes: &[u8], size: u16) -> Result<Vec<u8>, AllocError>
    requires { length bytes.now ≤ size }
    ensures { IfOk result (λ full. full.items ≡ bytes.now ++ replicate (size - length bytes.now) 32) }
{
    let mut full = bytes.to_vec(alloc)?;
    full.resize(usize::from(size), b' ')?;
    Ok(full)
}

/// A value of as many bytes as its item.
fn full_value(alloc: Global, field: Field, value: &[u8]) -> Result<Vec<u8>, AllocError>
    requires { length value.now ≤ field.length }
    ensures { IfOk result (λ bytes. bytes.items ≡ full_value field value.now) }
{
    if field.numeric && are_digits(value) {
        after_zeros(alloc, value, field.length)
    } else {
        before_spaces(alloc, value, field.length)
    }
}

/// The condition of a word on a record of these items. `NoSign`: it has none. `NoItem`: the record has
/// no item of its name. `LongValue`: the value is longer than the item. `Memory`.
fn condition_of(alloc: Global, items: &[Placed], word: &str) -> Result<Condition, CommandFault>
    ensures { ComesOfWords (IsConditionBy (map item_of items.now) word.now) (map item_of items.now)
        (word.now ∷ []) result }
{
    let Some(said) = said_in(word) else {
        return Err(CommandFault::Condition(ConditionFault::NoSign));
    };
    let Some(field) = item_with_name(items, said.name) else {
        return Err(CommandFault::Condition(ConditionFault::NoItem));
    };
    let Ok(value) = value_in(alloc, said.value) else {
        return Err(CommandFault::Memory);
    };
    if value.len() > usize::from(field.length) {
        return Err(CommandFault::Condition(ConditionFault::LongValue));
    }
    match full_value(alloc, field, value.as_slice()) {
        Ok(value) => Ok(Condition {
            offset: field.offset,
            operator: said.operator,
            value,
        }),
        Err(_) => Err(CommandFault::Memory),
    }
}

/// Adds the conditions of words on a record of these items.
fn add_conditions(
    alloc: Global,
    items: &[Placed],
    words: &[&str],
    conditions: &mut Vec<Condition>,
) -> Result<(), CommandFault>
    ensures { AddsOrRefuses (map item_of items.now) (texts_of words.now) conditions.old.items
        conditions.new.items result }
{
    let Some((first, rest)) = words.split_first() else {
        return Ok(());
    };
    let condition = match condition_of(alloc, items, first) {
        Ok(condition) => condition,
        Err(fault) => return Err(fault),
    };
    if conditions.push(condition).is_err() {
        return Err(CommandFault::Memory);
    }
    add_conditions(alloc, items, rest, conditions)
}

/// The conditions of words on a record of these items, in the order of the words.
pub fn conditions_of(
    alloc: Global,
    items: &[Placed],
    words: &[&str],
) -> Result<Vec<Condition>, CommandFault>
    ensures { GivesConditions (map item_of items.now) (texts_of words.now) result }
{
    let mut conditions = Vec::new(alloc);
    match add_conditions(alloc, items, words, &mut conditions) {
        Ok(()) => Ok(conditions),
        Err(fault) => Err(fault),
    }
}
