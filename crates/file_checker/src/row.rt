//! A row: stamps, and the record behind them.

ghost use Rattle.std.specs.Prelude.{◌≡◌, ◌≤◌, ◌↔◌, drop, length, IsTrue};
ghost use Rattle.record_layout.specs.Schema.{value_of};
ghost use Rattle.indexed_file.specs.File.{stamp_of};
ghost use Rattle.open_file.specs.Stored.{stamps_length};
ghost use Rattle.open_file.specs.Fields.{file_schema};
ghost use Rattle.file_checker.specs.Leading.{IsStoredRecord, IsStoredRow, HasKeyOf, HasAlternateOf};
ghost use Rattle.file_checker.specs.Leading.{stored_row};

use crate::stamps::{are_stamps, stamp_at};
use open_file::OpenFile;

/// The record behind the stamps.
fn record_of<'a>(file: &OpenFile, stored: &'a [u8]) -> &'a [u8]
    requires { IsStoredRecord file.now stored.now }
    ensures value { result.now ≡ drop (stamps_length (drop 1 (file_schema file.now).keys)) stored.now }
    ensures least { (file_schema file.now).least ≤ length result.now }
{
    &stored[file.stamps_length() as usize..]
}

/// Stamps and record are those of a row of the file.
pub fn is_row(file: &OpenFile, stored: &[u8]) -> bool
    requires { IsStoredRecord file.now stored.now }
    ensures { IsTrue result ↔ IsStoredRow file.now stored.now }
{
    are_stamps(&file.keys()[1..], stored, file.next_stamp())
}

/// The value of key k.
pub fn value<'a>(file: &OpenFile, stored: &'a [u8], k: u8) -> &'a [u8]
    requires { HasKeyOf file.now stored.now k }
    ensures { result.now ≡ value_of (file_schema file.now) k (stored_row file.now stored.now).bytes }
{
    file.value(record_of(file, stored), k)
}

/// The stamp in alternate key k, 0 in a unique one.
pub fn stamp(file: &OpenFile, stored: &[u8], k: u8) -> u64
    requires { HasAlternateOf file.now stored.now k }
    ensures { result ≡ stamp_of k (stored_row file.now stored.now) }
{
    stamp_at(&file.keys()[1..], stored, k as usize - 1)
}
