//! The lines.
ghost use Rattle.std.specs.Prelude.{◌≡◌, ◌++◌, ◌+◌, ◌<◌, ◌≤◌, ◌^◌, length, replicate, decimal, OnOk, IfOk};
ghost use Rattle.page_walks.specs.declared.level.Level.{Level};
ghost use Rattle.file_reports.specs.StatisticsLines.{bar_of, level_place, level_fill, level_line, level_lines};
ghost use Rattle.file_reports.specs.StatisticsLines.{key_entries, key_start, key_statistics_text, keys_text};
ghost use Rattle.file_reports.specs.StatisticsLines.{number_behind};
ghost use Rattle.file_reports.specs.StatisticsLines.{count_text, other_pages, kinds_text, page_line, slot_line};
ghost use Rattle.file_reports.specs.StatisticsLines.{statistics_text};

use crate::statistics::{FileStatistics, KeyStatistics};
use itoa::Buffer;
use page_walks::Level;
use std::alloc::{AllocError, Global};

/// Adds a text.
fn add(lines: &mut Vec<u8>, text: &[u8]) -> Result<(), AllocError>
    ensures { OnOk result (lines.new.items ≡ lines.old.items ++ text.now) }
{
    lines.extend_from_slice(text)
}

/// Adds a text, and a number behind it.
fn add_number_behind(lines: &mut Vec<u8>, text: &[u8], n: u64) -> Result<(), AllocError>
    ensures { OnOk result (lines.new.items ≡ lines.old.items ++ number_behind text.now n) }
{
    let mut buffer = Buffer::new();
    add(lines, text)?;
    lines.extend_from_slice(buffer.format(n).as_bytes())
}

/// Adds a text, and the number that it tells.
fn add_count(lines: &mut Vec<u8>, text: &[u8], n: u64) -> Result<(), AllocError>
    ensures { OnOk result (lines.new.items ≡ lines.old.items ++ count_text text.now n) }
{
    add_number_behind(lines, text, n)
}

/// Adds a byte so many times.
fn add_places(lines: &mut Vec<u8>, count: u64, byte: u8) -> Result<(), AllocError>
    requires { count ≤ 20 }
    ensures { OnOk result (lines.new.items ≡ lines.old.items ++ replicate count byte) }
{
    lines.resize(lines.len() + count as usize, byte)
}

/// Adds the bar of so many percent.
fn add_bar(lines: &mut Vec<u8>, fill: u64) -> Result<(), AllocError>
    requires { fill ≤ 100 }
    ensures { OnOk result (lines.new.items ≡ lines.old.items ++ bar_of fill) }
{
    add_places(lines, fill / 5, b'#')?;
    add_places(lines, 20 - fill / 5, b' ')
}

/// Adds what a level has.
fn add_level_place(lines: &mut Vec<u8>, number: u64, level: Level) -> Result<(), AllocError>
    ensures { OnOk result (lines.new.items ≡ lines.old.items ++ level_place number level) }
{
    add_count(lines, b"  level ", number)?;
    add_count(lines, b" pages ", level.pages)?;
    add_count(lines, b" entries ", level.entries)
}

/// Adds how full a level is, and ends the line.
fn add_level_fill(lines: &mut Vec<u8>, fill: u64) -> Result<(), AllocError>
    requires { fill ≤ 100 }
    ensures { OnOk result (lines.new.items ≡ lines.old.items ++ level_fill fill) }
{
    add_count(lines, b" fill ", fill)?;
    add(lines, b"% [")?;
    add_bar(lines, fill)?;
    add(lines, b"]\n")
}

/// Adds the line of a level.
fn add_level(lines: &mut Vec<u8>, number: u64, level: Level) -> Result<(), AllocError>
    ensures { OnOk result (lines.new.items ≡ lines.old.items ++ level_line number level) }
{
    add_level_place(lines, number, level)?;
    add_level_fill(lines, level.fill())
}

/// Adds the lines of levels, the last of which has the leaves.
fn add_levels(lines: &mut Vec<u8>, levels: &[Level]) -> Result<(), AllocError>
    ensures { OnOk result (lines.new.items ≡ lines.old.items ++ level_lines levels.now) }
{
    let Some((level, below)) = levels.split_first() else {
        return Ok(());
    };
    add_level(lines, below.len() as u64, *level)?;
    add_levels(lines, below)
}

/// Adds the entries of a key, and how many of them have one value at most, and ends the line.
fn add_key_entries(lines: &mut Vec<u8>, key: &KeyStatistics) -> Result<(), AllocError>
    ensures { OnOk result (lines.new.items ≡ lines.old.items ++ key_entries key.now) }
{
    add_count(lines, b" entries ", key.entries)?;
    add_count(lines, b" longest run ", key.longest)?;
    add(lines, b"\n")
}

/// Adds the first line of key k.
fn add_key_start(lines: &mut Vec<u8>, k: u64, key: &KeyStatistics) -> Result<(), AllocError>
    ensures { OnOk result (lines.new.items ≡ lines.old.items ++ key_start k key.now) }
{
    add_count(lines, b"key ", k)?;
    add_count(lines, b" pages ", key.pages)?;
    add_key_entries(lines, key)
}

/// Adds the lines of key k.
fn add_key(lines: &mut Vec<u8>, k: u64, key: &KeyStatistics) -> Result<(), AllocError>
    ensures { OnOk result (lines.new.items ≡ lines.old.items ++ key_statistics_text k key.now) }
{
    add_key_start(lines, k, key)?;
    add_levels(lines, &key.levels)
}

/// Adds the lines of the keys from key k on.
fn add_keys(lines: &mut Vec<u8>, k: u64, keys: &[KeyStatistics]) -> Result<(), AllocError>
    requires { k + length keys.now < 2 ^ 64 }
    ensures { OnOk result (lines.new.items ≡ lines.old.items ++ keys_text k keys.now) }
{
    let Some((key, keys)) = keys.split_first() else {
        return Ok(());
    };
    add_key(lines, k, key)?;
    add_keys(lines, k + 1, keys)
}

/// Adds the pages of the trees and the free ones, and ends the line.
fn add_other_pages(lines: &mut Vec<u8>, counts: &FileStatistics) -> Result<(), AllocError>
    ensures { OnOk result (lines.new.items ≡ lines.old.items ++ other_pages counts.now) }
{
    add_count(lines, b", keys ", counts.trees)?;
    add_count(lines, b", free ", counts.free)?;
    add(lines, b"\n")
}

/// Adds the pages by their kinds, and ends the line.
fn add_kinds(lines: &mut Vec<u8>, counts: &FileStatistics) -> Result<(), AllocError>
    ensures { OnOk result (lines.new.items ≡ lines.old.items ++ kinds_text counts.now) }
{
    add_count(lines, b": header 1, heap ", counts.heap)?;
    add_other_pages(lines, counts)
}

/// Adds the line of pages.
fn add_page_line(lines: &mut Vec<u8>, counts: &FileStatistics) -> Result<(), AllocError>
    ensures { OnOk result (lines.new.items ≡ lines.old.items ++ page_line counts.now) }
{
    add_count(lines, b"pages ", counts.pages)?;
    add_kinds(lines, counts)
}

/// Adds the line of slots.
fn add_slot_line(lines: &mut Vec<u8>, counts: &FileStatistics) -> Result<(), AllocError>
    ensures { OnOk result (lines.new.items ≡ lines.old.items ++ slot_line counts.now) }
{
    add_count(lines, b"slots ", counts.slots)?;
    add_count(lines, b": used ", counts.records)?;
    add_count(
        lines,
        b", free ",
        counts.slots.saturating_sub(counts.records),
    )?;
    add(lines, b"\n")
}

/// The lines that tell what is counted of a file.
pub fn statistics_lines(alloc: Global, counts: &FileStatistics) -> Result<Vec<u8>, AllocError>
    ensures { IfOk result (λ lines. lines.items ≡ statistics_text counts.now) }
{
    let mut lines = Vec::new(alloc);
    add_page_line(&mut lines, counts)?;
    add_slot_line(&mut lines, counts)?;
    add_keys(&mut lines, 0, &counts.keys)?;
    Ok(lines)
}
