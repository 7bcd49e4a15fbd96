//! The bytes in quotes.
ghost use Rattle.record_text.specs.Part.{ReadsInside, HasPlaces};

use crate::quoted::{Quoting, first_quoted};

/// Bytes that were read into a record area: the place behind them, and the text behind them.
#[derive(Clone, Copy)]
pub struct Cell<'a> {
    pub at: usize,
    pub behind: &'a [u8],
}

/// Reads bytes into the area from one place on, up to what is the front of no byte, and not past
/// another place.
pub fn read_cell<'a>(
    quoting: Quoting,
    text: &'a [u8],
    area: &mut [u8],
    from: usize,
    to: usize,
) -> Cell<'a>
    requires { HasPlaces area.old from to }
    ensures { ReadsInside quoting text.now area.old from to area.new result }
{
    let mut rest = text;
    let mut at = from;
    'more: while at < to {
        let Some(first) = first_quoted(quoting, rest) else {
            return Cell { at, behind: rest };
        };
        area[at] = first.byte;
        at += 1;
        let (_, behind) = rest.split_at(first.size);
        rest = behind;
    }
    Cell { at, behind: rest }
}
