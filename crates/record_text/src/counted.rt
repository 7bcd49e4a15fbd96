//! The bytes of a value are counted.
ghost use Rattle.std.specs.Prelude.{◌<◌, ◌+◌, ◌^◌, length};
ghost use Rattle.record_text.specs.Mistake.{CountsOn};

use crate::quoted::{Quoting, first_quoted};

/// Bytes in quotes that were counted, and the text behind them.
#[derive(Clone, Copy)]
pub struct Counted<'a> {
    pub bytes: usize,
    pub behind: &'a [u8],
}

/// Counts on, from so many bytes of a value, up to what is the front of no byte.
pub fn count_on<'a>(quoting: Quoting, text: &'a [u8], bytes: usize) -> Counted<'a>
    requires { bytes + length text.now < 2 ^ 64 }
    ensures { CountsOn quoting text.now bytes result }
{
    let mut rest = text;
    let mut count = bytes;
    'more: while let Some(first) = first_quoted(quoting, rest) {
        count += 1;
        let (_, behind) = rest.split_at(first.size);
        rest = behind;
    }
    Counted {
        bytes: count,
        behind: rest,
    }
}
