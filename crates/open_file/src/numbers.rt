//! The first 64 bytes of the header: the gate, the text, and the numbers before the keys.
//!
//! | Bytes | Content |
//! |---|---|
//! | 0 | gate: `43` ('C') closed, any other byte unfinished; `44` ('D') is written |
//! | 1 to 7 | ASCII `COBIXIF` |
//! | 8 to 9 | version: 1 where all records have one length, else 2 |
//! | 10 to 11 | greatest record length |
//! | 12 to 15 | page count, the header included |
//! | 16 to 19 | first free page |
//! | 20 to 23 | number of free pages |
//! | 24 to 27 | first heap page |
//! | 28 to 31, 32 to 33 | first free slot: its page (0 none), its slot |
//! | 34 | number of keys, 1 to 9 |
//! | 35 | zero |
//! | 36 to 37 | least record length; zero in version 1 |
//! | 38 to 39 | zero |
//! | 40 to 47 | next stamp |
//! | 48 to 55 | number of records |
//! | 56 to 63 | zero |
ghost use Rattle.std.specs.Prelude.{◌≡◌, ◌↔◌, ◌==◌, IsSome, IfSome, if◌then◌else◌};
ghost use Rattle.record_layout.specs.Schema.{IsSchema};
ghost use Rattle.open_file.specs.Bounds.{FitsItsBytes};
ghost use Rattle.open_file.specs.FirstPage.{first_bytes};
ghost use Rattle.open_file.specs.FirstPageReading.{least_in, greatest_in, numbers_in};

use crate::first_page::Header;
use crate::key_rows::{parts_in, trees_in};
use byteorder::{BigEndian, ByteOrder};
use pages::PAGE_SIZE;
use record_layout::Schema;

pub const GATE: usize = 0;

const TEXT: usize = 1;

const VERSION: usize = 8;

const GREATEST: usize = 10;

const PAGES: usize = 12;

const FIRST_FREE: usize = 16;

const FREE: usize = 20;

const FIRST_HEAP: usize = 24;

const FREE_SLOT_PAGE: usize = 28;

const FREE_SLOT: usize = 32;

const KEY_COUNT: usize = 34;

const LEAST: usize = 36;

const LEAST_END: usize = 38;

const NEXT_STAMP: usize = 40;

const RECORDS: usize = 48;

const RECORDS_END: usize = 56;

/// Where the numbers end.
pub const END: usize = 64;

/// The numbers of a header as they stand in its page.
pub fn first_bytes(header: &Header) -> [u8; END]
    ensures { result ≡ first_bytes header.now }
{
    let least = header.schema.least();
    let greatest = header.schema.greatest();
    let mut bytes = [0; END];
    bytes[GATE] = b'D';
    bytes[TEXT..VERSION].copy_from_slice(b"COBIXIF");
    BigEndian::write_u16(&mut bytes[VERSION..GREATEST], version(least, greatest));
    BigEndian::write_u16(&mut bytes[GREATEST..PAGES], greatest);
    BigEndian::write_u32(&mut bytes[PAGES..FIRST_FREE], header.pages);
    BigEndian::write_u32(&mut bytes[FIRST_FREE..FREE], header.first_free);
    BigEndian::write_u32(&mut bytes[FREE..FIRST_HEAP], header.free);
    BigEndian::write_u32(&mut bytes[FIRST_HEAP..FREE_SLOT_PAGE], header.first_heap);
    BigEndian::write_u32(&mut bytes[FREE_SLOT_PAGE..FREE_SLOT], header.free_slot_page);
    BigEndian::write_u16(&mut bytes[FREE_SLOT..KEY_COUNT], header.free_slot);
    bytes[KEY_COUNT] = header.schema.key_count() as u8;
    BigEndian::write_u16(&mut bytes[LEAST..LEAST_END], least_told(least, greatest));
    BigEndian::write_u64(&mut bytes[NEXT_STAMP..RECORDS], header.next_stamp);
    BigEndian::write_u64(&mut bytes[RECORDS..RECORDS_END], header.records);
    bytes
}

/// Which version of the layout has records of these lengths.
fn version(least: u16, greatest: u16) -> u16
    ensures { result ≡ (if least == greatest then 1 else 2) }
{
    if least == greatest { 1 } else { 2 }
}

/// The least length, where the version has one.
fn least_told(least: u16, greatest: u16) -> u16
    ensures { result ≡ (if least == greatest then 0 else least) }
{
    if least == greatest { 0 } else { least }
}

/// What stands in a page at the places of the table, where the lengths and keys are those of a schema.
pub fn numbers_in(page: &[u8; PAGE_SIZE]) -> Option<Header>
    ensures numbers { IfSome result (λ header. header ≡ numbers_in page.now) }
    ensures room { IfSome result FitsItsBytes }
    ensures schema { IsSome result ↔ IsSchema (numbers_in page.now).schema }
{
    let count = usize::from(page[KEY_COUNT]).min(9);
    let keys = parts_in(page, count);
    let schema = Schema::from_parts(least_in(page), greatest_in(page), &keys)?;
    Some(Header {
        schema,
        pages: BigEndian::read_u32(&page[PAGES..FIRST_FREE]),
        first_free: BigEndian::read_u32(&page[FIRST_FREE..FREE]),
        free: BigEndian::read_u32(&page[FREE..FIRST_HEAP]),
        first_heap: BigEndian::read_u32(&page[FIRST_HEAP..FREE_SLOT_PAGE]),
        free_slot_page: BigEndian::read_u32(&page[FREE_SLOT_PAGE..FREE_SLOT]),
        free_slot: BigEndian::read_u16(&page[FREE_SLOT..KEY_COUNT]),
        next_stamp: BigEndian::read_u64(&page[NEXT_STAMP..RECORDS]),
        records: BigEndian::read_u64(&page[RECORDS..RECORDS_END]),
        trees: trees_in(page, count),
    })
}

/// The greatest record length that a page tells.
fn greatest_in(page: &[u8; PAGE_SIZE]) -> u16
    ensures { result ≡ greatest_in page.now }
{
    BigEndian::read_u16(&page[GREATEST..PAGES])
}

/// The least record length that a page tells.
fn least_in(page: &[u8; PAGE_SIZE]) -> u16
    ensures { result ≡ least_in page.now }
{
    if BigEndian::read_u16(&page[VERSION..GREATEST]) == 1 {
        greatest_in(page)
    } else {
        BigEndian::read_u16(&page[LEAST..LEAST_END])
    }
}
