//! A schema from its numbers, as a file's header has them.
ghost use Rattle.std.specs.Prelude.{◌≡◌, ◌≢◌, ◌<◌, ◌↔◌, IsTrue, All, AllPairs};
ghost use Rattle.record_layout.specs.declared.schema.KeyKind.TheVariants.{Prime};
ghost use Rattle.record_layout.specs.Schema.{IsKey, AreKeys};

use crate::schema::{KeyKind, KeyPart};

/// Whether these are the keys of a schema: records have at least `least` bytes, and each key is
/// whole in each record; the first key alone is the prime key, and the alternate keys begin elsewhere
/// and stand by rising offset.
pub fn are_keys(least: u16, keys: &[KeyPart]) -> bool
    ensures whole { IsTrue result → All (IsKey least) keys.now }
    ensures keys { IsTrue result → AreKeys keys.now }
    ensures exact { All (IsKey least) keys.now → AreKeys keys.now → IsTrue result }
{
    match keys.split_first() {
        None => false,
        Some((prime, alternates)) => {
            prime.kind == KeyKind::Prime
                && are_whole(least, keys)
                && begin_elsewhere(prime.offset, alternates)
                && rise(alternates)
                && are_alternates(alternates)
        }
    }
}

fn are_whole(least: u16, keys: &[KeyPart]) -> bool
    ensures { IsTrue result ↔ All (IsKey least) keys.now }
{
    keys.iter().all(|part| is_key(least, part))
}

fn is_key(least: u16, part: &KeyPart) -> bool
    ensures { IsTrue result ↔ IsKey least part.now }
{
    1 <= part.length
        && part.length <= 250
        && u32::from(part.offset) + u32::from(part.length) <= u32::from(least)
}

fn are_alternates(alternates: &[KeyPart]) -> bool
    ensures { IsTrue result ↔ All (λ part. part.kind ≢ Prime) alternates.now }
{
    alternates.iter().all(|part| part.kind != KeyKind::Prime)
}

fn begin_elsewhere(offset: u16, alternates: &[KeyPart]) -> bool
    ensures { IsTrue result ↔ All (λ part. part.offset ≢ offset) alternates.now }
{
    alternates.iter().all(|part| part.offset != offset)
}

fn begin_behind(offset: u16, later: &[KeyPart]) -> bool
    ensures { IsTrue result ↔ All (λ part. offset < part.offset) later.now }
{
    later.iter().all(|part| offset < part.offset)
}

fn rise(alternates: &[KeyPart]) -> bool
    ensures { IsTrue result ↔ AllPairs (λ a b. a.offset < b.offset) alternates.now }
{
    match alternates.split_first() {
        None => true,
        Some((first, later)) => begin_behind(first.offset, later) && rise(later),
    }
}
