//! The writing of a text, all of it.
ghost use Rattle.std.specs.Prelude.{◌≡◌, ◌<◌, OnOk, OnErr};
ghost use Rattle.std.specs.Option.{IfSome};
ghost use Rattle.std.specs.Io.KnownBytes.{Appends, Keeps};
ghost use Rattle.streams.specs.Output.{AppendsFront, TakesSome};

use std::io::{ErrorKind, Write};

/// The writer refused the text.
#[derive(Clone, Copy, Debug, PartialEq, Eq)]
pub struct Refused;

/// How many interrupted calls in a row are a refusal.
const TRIES: u32 = 1000;

/// Offers a text until the writer takes a part of it, and tells how many bytes it took. None is a refusal.
fn offer<W: Write>(out: &mut W, text: &[u8]) -> Option<usize>
    ensures took { IfSome result (TakesSome (W.contents out.old) (W.contents out.new) text.now) }
    ensures refused { result ≡ None → Keeps (W.contents out.old) (W.contents out.new) }
{
    for _ in 0..TRIES {
        match out.write(text) {
            Ok(0) => return None,
            Ok(n) => return Some(n),
            Err(error) => {
                if error.kind() != ErrorKind::Interrupted {
                    return None;
                }
            }
        }
    }
    None
}

#[tactic(auto, using(crate::proofs::OutputLemmas::nothing_written, crate::proofs::OutputLemmas::all_written))]
/// Writes a text. A writer that takes no byte, fails, or is interrupted a thousand times in a row refuses it.
pub fn write_text<W: Write>(out: &mut W, text: &[u8]) -> Result<(), Refused>
    ensures written { OnOk result (Appends (W.contents out.old) (W.contents out.new) text.now) }
    ensures refused { OnErr result (AppendsFront (W.contents out.old) (W.contents out.new) text.now) }
{
    let mut rest = text;
    'more: while !rest.is_empty() {
        let Some(n) = offer(out, rest) else {
            return Err(Refused);
        };
        let (_, left) = rest.split_at(n);
        rest = left;
    }
    Ok(())
}
