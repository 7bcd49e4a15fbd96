//! What a value begins with, as a number.

ghost use Rattle.std.specs.Prelude.{◌≡◌, ◌<◌, length};
ghost use Rattle.file_building.specs.ValueLead.{lead_of_value};

use byteorder::{BigEndian, ByteOrder};

/// So many bytes are in the number.
const LEAD_BYTES: usize = 8;

/// The first eight bytes, the highest first.
pub fn lead_of_value(value: &[u8]) -> u64
    ensures { result ≡ lead_of_value value.now }
{
    if value.len() < LEAD_BYTES {
        lead_of_short(value)
    } else {
        BigEndian::read_u64(value)
    }
}

/// The same of fewer bytes, with zeros behind them.
fn lead_of_short(value: &[u8]) -> u64
    requires { length value.now < 8 }
    ensures { result ≡ lead_of_value value.now }
{
    let mut lead = [0; LEAD_BYTES];
    lead[..value.len()].copy_from_slice(value);
    BigEndian::read_u64(&lead)
}
