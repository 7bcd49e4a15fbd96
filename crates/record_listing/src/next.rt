//! The next record.
ghost use Rattle.std.specs.Prelude.{◌≡◌, ◌<◌, ◌≤◌, ◌-◌, length, true, IfOk, IfErr, IsTrue};
ghost use Rattle.std.specs.Ordering.{is_gt};
ghost use Rattle.io_state.specs.Rank.{rank_cmp};
ghost use Rattle.indexed_file.specs.Calls.{MayAnswerShut};
ghost use Rattle.io_state.specs.declared.position.Position.TheVariants.{After};
ghost use Rattle.record_listing.specs.Rising.{ranks_behind, rank_limit, rank_number};
ghost use Rattle.record_listing.specs.Reading.{HasOpenFile, OnlyReadsUnit, GoesOnTruly, comes_behind, ComesBehind};

use crate::asked::is_past;
use indexed_file::{Found, Library};
use io_state::{Fault, Key, Position};

/// Whether a value and a stamp come after others.
fn is_after(value: &[u8], stamp: u64, last: &[u8], last_stamp: u64) -> bool
    requires fits { length value.now ≤ 250 }
    ensures after { result ≡ is_gt (rank_cmp value.now stamp last.now last_stamp) }
    ensures fewer { result ≡ true
        → rank_limit - rank_number value.now stamp < rank_limit - rank_number last.now last_stamp }
{
    value.cmp(last).then(stamp.cmp(&last_stamp)).is_gt()
}

/// Whether what was found is behind the record of a position, by value and then by stamp.
fn is_behind(position: &Position, found: &Found) -> bool
    ensures behind { result ≡ comes_behind position.now found.now }
    ensures fewer { result ≡ true → ranks_behind (After found.now.key found.now.stamp) < ranks_behind position.now }
{
    match position {
        Position::After(key, stamp) => {
            is_after(found.key.as_slice(), found.stamp, key.as_slice(), *stamp)
        }
        _ => true,
    }
}

/// The next record that a position of unit 0 admits by key k, or none where it is past the bound or
/// there is none. It is read into the front of the area. `Damage`: also where what was found is not
/// behind the record of the position, so that a list of any bytes ends.
pub fn next_record<L: Library>(
    lib: &mut L,
    k: u8,
    to: &Option<Key>,
    position: &Position,
    area: &mut [u8],
) -> Result<Option<Found>, Fault>
    requires { HasOpenFile L.shown lib.old k (length area.old) }
    ensures reads { OnlyReadsUnit L.shown lib.old lib.new }
    ensures goes { GoesOnTruly L.shown lib.old lib.new k to.now position.now area.new result }
    ensures rises { IfOk result (ComesBehind position.now) }
    ensures fault { IfErr result (MayAnswerShut L.shown 0 lib.old lib.new) }
    ensures memory { result ≡ Err Fault.Memory → IsTrue L.shown.may_want_memory }
{
    match lib.next(0, k, position, area) {
        Ok(Some(found)) => {
            if !is_behind(position, &found) {
                return Err(Fault::Damage);
            }
            if is_past(to, &found.key) {
                return Ok(None);
            }
            Ok(Some(found))
        }
        Ok(None) => Ok(None),
        Err(fault) => Err(fault),
    }
}
