//! The frame that bytes begin with.
ghost use Rattle.std.specs.Prelude.{◌≡◌, true, length};
ghost use Rattle.byteorder.specs.Endian.{big_bytes};
ghost use Rattle.serve.specs.Input.{BeginsWithFrame};

use byteorder::{BigEndian, ByteOrder};

/// The length that a frame begins with.
pub fn length_of(head: &[u8]) -> u16
    requires { length head.now ≡ 2 }
    ensures { big_bytes 2 result ≡ head.now }
{
    BigEndian::read_u16(head)
}

/// Whether bytes begin with a whole frame.
pub fn has_frame(bytes: &[u8]) -> bool
    ensures { result ≡ true → BeginsWithFrame bytes.now }
{
    if bytes.len() < 2 {
        return false;
    }
    let (head, rest) = bytes.split_at(2);
    usize::from(length_of(head)) <= rest.len()
}
