//! The record of a prime value, as it is before a change.

ghost use Rattle.std.specs.Prelude.{◌≡◌, ◌+◌, ◌≤◌, length, drop, slice_range, IfOk, IfSome};
ghost use Rattle.pages.specs.PageCalls.{ReadsPages};
ghost use Rattle.key_index.specs.Standing.{prime_height};
ghost use Rattle.open_file.specs.Stored.{stamps_length};
ghost use Rattle.open_file.specs.ReadOff.{stamps_off};
ghost use Rattle.open_file.specs.Stands.{IsShaped};
ghost use Rattle.open_file.specs.Fields.{alternates_of, prime_index_of, file_schema};
ghost use Rattle.file_changes.specs.InPages.{in_pages, IsReadyIn};
ghost use Rattle.file_changes.specs.Old.{AnswersFinding, HasRecordLength, HasStampsIn, most_stored};

use arrayvec::ArrayVec;
use byteorder::{BigEndian, ByteOrder};
use io_state::Fault;
use open_file::OpenFile;
use pages::Pages;
use record_heap::Place;

/// Where a record is, its stamp in each alternate key (0 in a unique one), and where it ends in its
/// slot. It begins behind the stamps.
#[derive(Drop)]
pub struct OldRecord {
    pub place: Place,
    pub stamps: ArrayVec<u64, 8>,
    pub end: usize,
}

/// A slot of so many bytes is enough for most files. It is soon filled.
pub(crate) const SHORT_SLOT: usize = 512;

/// The longest slot.
pub(crate) const LONGEST_SLOT: usize = 4064;

/// How many bytes stamps and a record are at most.
pub(crate) fn most_stored(opened: &OpenFile) -> usize
    ensures { result ≡ most_stored opened.now }
{
    let shape = opened.heap().shape();
    usize::from(shape.stamps) + usize::from(shape.greatest)
}

/// The record of a prime value, which is in the front of the slot then, behind its stamps.
pub(crate) fn find_old<P: Pages>(
    opened: &OpenFile,
    pages: &mut P,
    prime: &[u8],
    slot: &mut [u8],
) -> Result<Option<OldRecord>, Fault>
    requires ready { IsReadyIn P.shown (in_pages opened.now pages.old) }
    requires room { most_stored opened.now ≤ length slot.old }
    ensures found { AnswersFinding P.shown opened.now prime.now slot.new pages.old pages.new result }
    ensures within { IfOk result (λ found. IfSome found (HasRecordLength opened.now)) }
    ensures long { length slot.new ≡ length slot.old }
    ensures reads { ReadsPages P.shown (prime_height (prime_index_of opened.now) + 1) pages.old pages.new
        result }
{
    let Some(entry) = opened.find_prime(pages, prime)? else {
        return Ok(None);
    };
    let end = opened.read_stored(pages, entry.place, slot)?;
    let stamps = stamps_in(opened, slot);
    Ok(Some(OldRecord {
        place: entry.place,
        stamps,
        end,
    }))
}

/// Its bytes, in the slot in which it was found.
pub(crate) fn record_in<'a>(opened: &OpenFile, old: &OldRecord, slot: &'a [u8]) -> &'a [u8]
    requires shaped { IsShaped opened.now }
    requires within { HasRecordLength opened.now old.now }
    requires room { most_stored opened.now ≤ length slot.now }
    ensures bytes { result.now ≡ slice_range slot.now
        (stamps_length (drop 1 (file_schema opened.now).keys)) old.now.end }
    ensures least { (file_schema opened.now).least ≤ length result.now }
    ensures greatest { length result.now ≤ (file_schema opened.now).greatest }
{
    let start = usize::from(opened.stamps_length());
    &slot[start..old.end]
}

/// The stamps in the front of a slot, one for each alternate key, 0 for a unique one.
fn stamps_in(opened: &OpenFile, slot: &[u8]) -> ArrayVec<u64, 8>
    requires { HasStampsIn opened.now slot.now }
    ensures stamps { result.items ≡ stamps_off (drop 1 (file_schema opened.now).keys) slot.now }
    ensures many { length result.items ≡ length (alternates_of opened.now) }
{
    let mut stamps = ArrayVec::new();
    let mut at = 0;
    for k in 1..opened.key_count() {
        if opened.part(k as u8).has_duplicates() {
            stamps.push(BigEndian::read_u64(&slot[at..]));
            at += 8;
        } else {
            stamps.push(0);
        }
    }
    stamps
}
