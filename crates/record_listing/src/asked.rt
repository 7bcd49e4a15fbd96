//! What is asked of a list.
ghost use Rattle.std.specs.Prelude.{◌≡◌};
ghost use Rattle.record_listing.specs.Listed.{is_past};

use crate::condition::Condition;
use io_state::Key;

/// Which records are listed, and how.
#[derive(Drop)]
pub struct Asked {
    /// The number of the key by which they are ordered.
    pub key: u8,
    /// The first bytes of the value of the first one are not less.
    pub from: Key,
    /// The first bytes of the value of the last one are not greater.
    pub to: Option<Key>,
    /// How many are listed at most.
    pub first: u64,
    /// What has to hold of each of them.
    pub conditions: Vec<Condition>,
}

/// Whether a value is past a bound.
fn is_past_bound(to: &Key, value: &[u8]) -> bool
    ensures { result ≡ is_past (Some to.now) value.now }
{
    let front = &value[..to.len().min(value.len())];
    front.cmp(to.as_slice()).is_gt()
}

/// Whether a value is past the last bound.
pub fn is_past(to: &Option<Key>, value: &Key) -> bool
    ensures { result ≡ is_past to.now value.now.items }
{
    match to {
        Some(to) => is_past_bound(to, value.as_slice()),
        None => false,
    }
}
