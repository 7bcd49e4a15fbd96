//! The answers that are on their way to the writer.
ghost use Rattle.std.specs.Prelude.{OnOk, OnErr};
ghost use Rattle.serve.specs.HeldAnswers.{RefusesHeld, SendsHeld, MakesWayForInput};

use crate::frame::has_frame;
use crate::output::hand_on;
use std::io::Write;
use streams::{HeldText, Refused};

/// Hands all answers that are held to the writer, if there are any, and has it hand them on.
pub fn send_held<W: Write>(held: &mut HeldText, out: &mut W) -> Result<(), Refused>
    ensures { SendsHeld (W.contents out.old) (W.contents out.new) held.old held.new result }
{
    if held.is_empty() {
        return Ok(());
    }
    held.hand_over(out)?;
    hand_on(out)
}

/// Hands all answers that are held to the writer, unless the next request is whole among the bytes
/// that have come.
pub fn make_way<W: Write>(held: &mut HeldText, ahead: &[u8], out: &mut W) -> Result<(), Refused>
    ensures ready { OnOk result (MakesWayForInput ahead.now (W.contents out.old)
        (W.contents out.new) held.old held.new) }
    ensures refused { OnErr result (RefusesHeld (W.contents out.old) (W.contents out.new) held.old) }
{
    if has_frame(ahead) {
        return Ok(());
    }
    send_held(held, out)
}
