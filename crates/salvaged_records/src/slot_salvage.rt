//! The slots in use of pages, sorted out and written.
ghost use Rattle.std.specs.Prelude.{◌≡◌, ◌≤◌, ◌^◌, length};
ghost use Rattle.pages.specs.Source.{KeepsItsPages, OfItsPages};
ghost use Rattle.record_layout.specs.Schema.{IsKey, key_at};
ghost use Rattle.salvaged_records.specs.Salvaged.{Sorts, GivesSlotsOf, writings, lead_by};

use crate::doubts::Doubts;
use crate::lead::Lead;
use crate::leaves::prime_shape;
use crate::shape::shape_of;
use crate::slot_lines::write_slots;
use crate::slot_list::{SlotKind, SlotList};
use crate::telling::doubts_of;
use pages::PageSource;
use record_heap::SlotShape;
use record_layout::{KeyPart, Schema};
use record_listing::ListFault;
use record_text::Form;
use std::alloc::Global;
use std::io::Write;

/// How the lines of records are written: in a form, and with the page and the slot of each or without.
#[derive(Clone, Copy)]
pub struct SalvageForm<'a> {
    pub form: &'a Form,
    pub places: bool,
}

/// What stands before each line.
fn lead_by(places: bool) -> Lead
    ensures { result ≡ lead_by places }
{
    if places { Lead::Place } else { Lead::Bare }
}

/// The prime key of a schema.
fn prime_of(schema: &Schema) -> KeyPart
    ensures part { result ≡ key_at schema.now 0 }
    ensures whole { IsKey schema.now.least result }
{
    let _least = schema.least();
    schema.part(0)
}

/// Tells the slots that are told, and then lists those that are kept; answers how many were listed, and
/// how many were told.
fn write_both<P: PageSource, W: Write, E: Write>(
    alloc: Global,
    pages: &mut P,
    shape: SlotShape,
    doubts: &Doubts,
    asked: &SalvageForm<'_>,
    told: &mut E,
    out: &mut W,
) -> Result<(u64, u64), ListFault>
    requires few { OfItsPages P.has pages.old (λ list. length list ≤ 2 ^ 32) }
    ensures both { OfItsPages P.has pages.new
        (Sorts doubts.now shape asked.now
        (writings W.contents E.contents (out.old, told.old) (out.new, told.new)) result) }
    ensures before { KeepsItsPages P.has pages.old pages.new }
    ensures memory { result ≡ Err ListFault.Memory → W.contents out.new ≡ W.contents out.old }
{
    let form = Form::Text;
    let doubted = SlotList {
        kind: SlotKind::Told,
        doubts,
        form: &form,
        lead: Lead::Doubt,
    };
    let kept = SlotList {
        kind: SlotKind::Kept,
        doubts,
        form: asked.form,
        lead: lead_by(asked.places),
    };
    match write_slots(alloc, pages, shape, &doubted, told) {
        Ok(tellings) => match write_slots(alloc, pages, shape, &kept, out) {
            Ok(listed) => Ok((listed, tellings)),
            Err(fault) => Err(fault),
        },
        Err(fault) => Err(fault),
    }
}

/// Writes the lines of the records in the slots in use of pages, as they are in a file of this schema,
/// page by page, but for the slots that have one prime value: each of these is told, with its place, and
/// the one to which the entry of the prime key leads is listed, if there is one. Answers how many were
/// listed, and how many told.
///
/// The pages are read in their order, twice more than those that tell slots apart: once for the values
/// that may come twice, and thrice more where there are some. There are so many pages, or about so many:
/// 64 bytes are set aside for each.
///
/// `Output`: a writer refused a line; a front of what is told or listed may have been written. `Memory`:
/// nothing was listed. `Input` never comes: where the source has failed, and has no pages any more, what
/// was written says nothing.
pub fn salvage_slots<P: PageSource, W: Write, E: Write>(
    alloc: Global,
    pages: &mut P,
    count: usize,
    schema: &Schema,
    asked: &SalvageForm<'_>,
    told: &mut E,
    out: &mut W,
) -> Result<(u64, u64), ListFault>
    requires few { OfItsPages P.has pages.old (λ list. length list ≤ 2 ^ 32) }
    ensures slots { OfItsPages P.has pages.new (GivesSlotsOf schema.now asked.now
        (writings W.contents E.contents (out.old, told.old) (out.new, told.new)) result) }
    ensures before { KeepsItsPages P.has pages.old pages.new }
    ensures memory { result ≡ Err ListFault.Memory → W.contents out.new ≡ W.contents out.old }
{
    let prime = prime_of(schema);
    let nodes = prime_shape(prime, schema.least());
    let shape = shape_of(schema);
    match doubts_of(alloc, pages, count, shape, prime, nodes) {
        Ok(doubts) => write_both(alloc, pages, shape, &doubts, asked, told, out),
        Err(_) => Err(ListFault::Memory),
    }
}
