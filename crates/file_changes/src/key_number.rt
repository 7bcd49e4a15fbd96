//! The number of an alternate record key.
ghost use Rattle.std.specs.Prelude.{◌≡◌, ◌+◌, ◌<◌};

/// The number of alternate key `j`. The prime key is key 0, and they come behind it.
pub(crate) fn number_of(j: usize) -> u8
    requires { j < 255 }
    ensures { result ≡ j + 1 }
{
    j as u8 + 1
}
