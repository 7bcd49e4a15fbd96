//! The 77-level items.
ghost use Rattle.std.specs.Prelude.{◌≡◌, ℕ, IfSome, IfNone, IfOk, IfErr, IsTrue, IsFalse, position, is_some};
ghost use Rattle.std.specs.Prelude.{if◌then◌else◌};
ghost use Rattle.std.specs.Str.{bytes_eq};
ghost use Rattle.deck_parser.specs.Fault.{cause_code};
ghost use Rattle.file_control.specs.Checks.{HasDigitsFor};
ghost use Rattle.file_control.specs.Description.{HasDigits, digit_count, IsLengthItem};

use crate::described_files::DescribedFiles;
use deck_entries::StorageItem;
use deck_parser::{FaultCause, LayoutCause, Unknown};
use io_state::Name;
use record_layout::{Picture, one_picture};

/// How many digits an item of this picture has, if it is one of digits.
#[tactic(auto, using(record_layout::proofs::PictureLemmas::kind_of))]
fn digits_of(picture: &[u8]) -> Option<u16>
    ensures some { IfSome result (λ digits. HasDigits picture.now digits) }
    ensures none { IfNone result ((digits : ℕ) → HasDigits picture.now digits → ⊥) }
{
    one_picture();
    match Picture::parse(picture) {
        Ok(picture) if picture.numeric => Some(picture.length),
        _ => None,
    }
}

/// How many digits a record's length has.
fn digit_count(length: u64) -> u16
    ensures { result ≡ digit_count length }
{
    if length < 10 {
        1
    } else if length < 100 {
        2
    } else if length < 1000 {
        3
    } else {
        4
    }
}

/// The place of the item of a name.
fn place_of(storage: &[StorageItem], name: &[u8]) -> Option<usize>
    ensures { result ≡ position (λ entry. bytes_eq entry.name name.now) storage.now }
{
    storage
        .iter()
        .position(|item| item.name.as_str().as_bytes() == name)
}

/// How many digits the item has, if it is one of digits.
pub fn digits_of_item(item: &StorageItem) -> Option<u16>
    ensures some { IfSome result (λ digits. HasDigits item.now.picture digits) }
    ensures none { IfNone result ((digits : ℕ) → HasDigits item.now.picture digits → ⊥) }
{
    digits_of(item.picture_bytes())
}

/// Whether the item has digits enough for a record's length.
fn has_room(item: &StorageItem, greatest: u64) -> bool
    ensures yes { IsTrue result → HasDigitsFor item.now greatest }
    ensures no { IsFalse result → HasDigitsFor item.now greatest → ⊥ }
{
    match digits_of_item(item) {
        Some(digits) => digit_count(greatest) <= digits,
        None => false,
    }
}

/// The place of the item that the length of the records of a file depends on. It is unknown, or has
/// too few digits or none.
pub fn length_item(
    files: &DescribedFiles<'_>,
    storage: &[StorageItem],
    at: usize,
    name: &[u8],
    greatest: u64,
) -> Result<usize, FaultCause>
    ensures place { IfOk result (λ place. IsLengthItem storage.now name.now greatest place) }
    ensures none { IfErr result (λ cause. (place : ℕ) → IsLengthItem storage.now name.now greatest place
        → ⊥) }
    ensures code { IfErr result (λ cause. cause_code cause ≡ (if is_some
        (position (λ entry. bytes_eq entry.name name.now) storage.now) then 7 else 3)) }
{
    let Some(place) = place_of(storage, name) else {
        return Err(FaultCause::Unknown(Unknown::LengthItem(at, files.named(name))));
    };
    match storage.get(place) {
        Some(item) if has_room(item, greatest) => Ok(place),
        _ => Err(FaultCause::Layout(LayoutCause::LengthItem(at, greatest))),
    }
}
