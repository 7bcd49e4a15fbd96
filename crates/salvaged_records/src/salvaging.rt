//! The salvage of the records of a file.
ghost use Rattle.std.specs.Prelude.{◌≡◌, ℕ, List, true, false, IfOk, IfSome, IsNone, OnOk};
ghost use Rattle.file_checker.specs.Bytes.{AreAllPages};
ghost use Rattle.file_checker.specs.Sound.{IsRight, IsSound};
ghost use Rattle.pages.specs.declared.fault_place.FaultPlace.{FaultPlace};
ghost use Rattle.open_file.specs.FirstPage.{IsFirstPage};
ghost use Rattle.page_store.specs.DeviceFile.{page_of_bytes};
ghost use Rattle.salvaged_records.specs.Salvaged.{with_gate_closed, AreAllAsked, writings, EndsWith};
ghost use Rattle.salvaged_records.specs.Salvaged.{HasNoHeader, IsSalvageOf, IsSchemaFor};
ghost use Rattle.salvaged_records.specs.Salvaged.{Ends, ListsSlots, Salvages};

use crate::slot_salvage::{SalvageForm, salvage_slots};
use file_checker::{Reason, Verdict, check_bytes};
use io_state::Key;
use open_file::Header;
use pages::{PAGE_SIZE, PageList};
use record_layout::Schema;
use record_listing::{Asked, ListFault, list_sound};
use record_text::Form;
use std::alloc::Global;
use std::io::Write;

/// The first byte of a file whose gate is closed.
const CLOSED: u8 = b'C';

/// The most pages that have a number.
const MOST_PAGES: usize = 1 << 32;

/// What was salvaged.
#[derive(Clone, Copy, Debug, PartialEq, Eq)]
pub enum Salvage {
    /// The bytes stand for a file where its gate is closed: so many records, all of them.
    All(u64),
    /// They do not, or so many slots were not found: so many records, one of each prime value that is
    /// not in doubt; and so many slots whose prime value others have.
    Slots(u64, u64),
    /// The first page is none of a file, for this reason, and no deck has a schema. Nothing was
    /// written.
    Unsound(Reason),
}

/// Closes the gate in the bytes of a file: those that are held, and not in the file itself.
pub fn close_gate(bytes: &mut [u8])
    ensures { bytes.new ≡ with_gate_closed bytes.old }
{
    if !bytes.is_empty() {
        bytes[0] = CLOSED;
    }
}

/// All records, in the order of the prime key.
fn all_records(alloc: Global) -> Asked
    ensures { AreAllAsked result }
{
    Asked {
        key: 0,
        from: Key::new(),
        to: None,
        first: u64::MAX,
        conditions: Vec::new(alloc),
    }
}

/// Lists the records of the file that these bytes stand for.
fn list_all<W: Write, E: Write>(
    alloc: Global,
    bytes: Vec<u8>,
    deck: &Option<Schema>,
    records: u64,
    form: &Form,
    told: &mut E,
    out: &mut W,
) -> Result<Salvage, ListFault>
    requires sound { (pages : ℕ) × IsSound bytes.items records pages }
    ensures ends { IfOk result (EndsWith deck.now bytes.items form.now false
        (writings W.contents E.contents (out.old, told.old) (out.new, told.new))) }
    ensures memory { result ≡ Err ListFault.Memory → W.contents out.new ≡ W.contents out.old }
{
    match list_sound(alloc, bytes, all_records(alloc), form, out) {
        // A file that is sound has a prime key, so it was listed.
        Ok(_) => Ok(Salvage::All(records)),
        Err(fault) => Err(fault),
    }
}

/// Lists the records in the slots of a file of this schema, whose whole pages these are, and answers
/// how many were listed, and how many slots were told.
fn list_slots<W: Write, E: Write>(
    alloc: Global,
    bytes: &[u8],
    pages: &[[u8; PAGE_SIZE]],
    schema: &Schema,
    asked: &SalvageForm<'_>,
    told: &mut E,
    out: &mut W,
) -> Result<(u64, u64), ListFault>
    requires pages { AreAllPages bytes.now pages.now }
    ensures slots { IfOk result (ListsSlots schema.now bytes.now asked.now
        (writings W.contents E.contents (out.old, told.old) (out.new, told.new))) }
    ensures memory { result ≡ Err ListFault.Memory → W.contents out.new ≡ W.contents out.old }
{
    if pages.len() > MOST_PAGES {
        return Err(ListFault::Memory);
    }
    let mut source = PageList { pages };
    salvage_slots(alloc, &mut source, pages.len(), schema, asked, told, out)
}

/// The whole pages of bytes, where they lie.
fn pages_in(bytes: &[u8]) -> &[[u8; PAGE_SIZE]]
    ensures { AreAllPages bytes.now result.now }
{
    let (pages, _) = bytes.as_chunks::<PAGE_SIZE>();
    pages
}

/// The header in the first of the whole pages of bytes, if there is one.
fn first_header(pages: &[[u8; PAGE_SIZE]]) -> Option<Header>
    ensures some { IfSome result (λ header. (bytes : List ℕ) → AreAllPages bytes pages.now
        → IsFirstPage header (page_of_bytes bytes 0)) }
    ensures none { IsNone result → (bytes : List ℕ) → AreAllPages bytes pages.now → HasNoHeader bytes }
{
    match pages.first() {
        Some(first) => Header::read(first),
        None => None,
    }
}

/// Lists the records in the slots of a file of this schema, which is refused.
fn list_refused_by<W: Write, E: Write>(
    alloc: Global,
    bytes: &[u8],
    pages: &[[u8; PAGE_SIZE]],
    schema: &Schema,
    deck: &Option<Schema>,
    reason: Reason,
    asked: &SalvageForm<'_>,
    told: &mut E,
    out: &mut W,
) -> Result<Salvage, ListFault>
    requires refused { (place : FaultPlace) × IsRight bytes.now (Verdict.Unsound reason place) }
    requires pages { AreAllPages bytes.now pages.now }
    requires schema { IsSchemaFor deck.now bytes.now schema.now }
    ensures ends { IfOk result (Salvages deck.now bytes.now asked.now
        (writings W.contents E.contents (out.old, told.old) (out.new, told.new))) }
    ensures memory { result ≡ Err ListFault.Memory → W.contents out.new ≡ W.contents out.old }
{
    match list_slots(alloc, bytes, pages, schema, asked, told, out) {
        Ok((listed, doubted)) => Ok(Salvage::Slots(listed, doubted)),
        Err(fault) => Err(fault),
    }
}

/// Lists the records in the slots of a file that is refused for this reason: by the schema of its
/// first page, or by that of a deck where it has none.
fn list_refused<W: Write, E: Write>(
    alloc: Global,
    bytes: &[u8],
    deck: &Option<Schema>,
    reason: Reason,
    asked: &SalvageForm<'_>,
    told: &mut E,
    out: &mut W,
) -> Result<Salvage, ListFault>
    requires refused { (place : FaultPlace) × IsRight bytes.now (Verdict.Unsound reason place) }
    ensures ends { IfOk result (Salvages deck.now bytes.now asked.now
        (writings W.contents E.contents (out.old, told.old) (out.new, told.new))) }
    ensures memory { result ≡ Err ListFault.Memory → W.contents out.new ≡ W.contents out.old }
{
    let pages = pages_in(bytes);
    match first_header(pages) {
        Some(header) => list_refused_by(
            alloc,
            bytes,
            pages,
            &header.schema,
            deck,
            reason,
            asked,
            told,
            out,
        ),
        None => match deck {
            Some(schema) => {
                list_refused_by(alloc, bytes, pages, schema, deck, reason, asked, told, out)
            }
            None => Ok(Salvage::Unsound(reason)),
        },
    }
}

/// What it is that so many slots of a file were listed, and so many told, which has so many records.
fn salvage_of(listed: u64, doubted: u64, records: u64) -> Salvage
    ensures { IsSalvageOf listed doubted records result }
{
    if listed == records && doubted == 0 {
        Salvage::All(records)
    } else {
        Salvage::Slots(listed, doubted)
    }
}

/// Lists the records in the slots of the file that these bytes stand for, each with its place.
fn list_placed<W: Write, E: Write>(
    alloc: Global,
    bytes: &[u8],
    deck: &Option<Schema>,
    records: u64,
    asked: &SalvageForm<'_>,
    told: &mut E,
    out: &mut W,
) -> Result<Salvage, ListFault>
    requires sound { (pages : ℕ) × IsSound bytes.now records pages }
    requires places { asked.now.places ≡ true }
    ensures ends { IfOk result (Salvages deck.now bytes.now asked.now
        (writings W.contents E.contents (out.old, told.old) (out.new, told.new))) }
    ensures memory { result ≡ Err ListFault.Memory → W.contents out.new ≡ W.contents out.old }
{
    let pages = pages_in(bytes);
    let Some(header) = first_header(pages) else {
        // A file that is sound has a first page.
        unreachable!()
    };
    match list_slots(alloc, bytes, pages, &header.schema, asked, told, out) {
        Ok((listed, doubted)) => Ok(salvage_of(listed, doubted, records)),
        Err(fault) => Err(fault),
    }
}

/// Lists the records of the file that these bytes stand for: with their places, or in the order of the
/// prime key.
fn list_whole<W: Write, E: Write>(
    alloc: Global,
    bytes: Vec<u8>,
    deck: &Option<Schema>,
    records: u64,
    asked: &SalvageForm<'_>,
    told: &mut E,
    out: &mut W,
) -> Result<Salvage, ListFault>
    requires sound { (pages : ℕ) × IsSound bytes.items records pages }
    ensures ends { IfOk result (Salvages deck.now bytes.items asked.now
        (writings W.contents E.contents (out.old, told.old) (out.new, told.new))) }
    ensures memory { result ≡ Err ListFault.Memory → W.contents out.new ≡ W.contents out.old }
{
    if asked.places {
        list_placed(alloc, bytes.as_slice(), deck, records, asked, told, out)
    } else {
        list_all(alloc, bytes, deck, records, asked.form, told, out)
    }
}

/// Writes the lines of the records that are left in the bytes of a file, whether or not its gate is
/// closed, in a form. Where the bytes stand for a file once the gate is closed they are exactly its
/// records, in the order of the prime key. Otherwise they are those of all slots in use, page by page,
/// but for the slots that have one prime value: each of these is told, with its place, and the one to
/// which the entry of the prime key leads is listed, if there is one. How slots are is told by the first
/// page, or by the schema of a deck where that is lost: a file that was being made has none until it is
/// closed. With places the page and the slot of each record stand before its line, and the records of a
/// sound file are listed page by page too. The file is not touched: the gate is closed in these bytes
/// alone.
///
/// `Output`: a writer refused a line; a front of what is told or listed may have been written. `Memory`:
/// nothing was listed. `Input` never comes: the bytes are there.
pub fn salvage_records<W: Write, E: Write>(
    alloc: Global,
    bytes: Vec<u8>,
    deck: &Option<Schema>,
    asked: &SalvageForm<'_>,
    told: &mut E,
    out: &mut W,
) -> Result<Salvage, ListFault>
    ensures ends { Ends deck.now bytes.items asked.now
        (writings W.contents E.contents (out.old, told.old) (out.new, told.new)) result }
    ensures memory { result ≡ Err ListFault.Memory → W.contents out.new ≡ W.contents out.old }
{
    let mut bytes = bytes;
    close_gate(bytes.as_mut_slice());
    match check_bytes(alloc, bytes.as_slice()) {
        Ok(Verdict::Sound { records, .. }) => {
            list_whole(alloc, bytes, deck, records, asked, told, out)
        }
        Ok(Verdict::Unsound(reason, _)) => {
            list_refused(alloc, bytes.as_slice(), deck, reason, asked, told, out)
        }
        Err(_) => Err(ListFault::Memory),
    }
}
