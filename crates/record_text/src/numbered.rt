//! Names with a number.
ghost use Rattle.std.specs.Prelude.{◌≡◌, ◌≤◌, ◌++◌, length, decimal};

use io_state::Name;
use itoa::Buffer;

/// A word and a number, as a name.
pub fn numbered(word: &str, n: u32) -> Name
    requires { length word.now ≤ 10 }
    ensures { result.bytes ≡ word.now ++ decimal n }
{
    let mut name = Name::new();
    let _ = name.try_push_str(word);
    let mut buffer = Buffer::new();
    let _ = name.try_push_str(buffer.format(n));
    name
}
