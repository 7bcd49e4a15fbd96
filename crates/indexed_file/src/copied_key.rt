//! A copy of a key.
ghost use Rattle.std.specs.Prelude.{◌≡◌};

use io_state::Key;

/// A copy, which takes no memory: no call of it fails, as `clone` may.
pub fn copy_of(key: &Key) -> Key
    ensures { result.items ≡ key.now.items }
{
    let mut copy = Key::new();
    let _ = copy.try_extend_from_slice(key.as_slice());
    copy
}
