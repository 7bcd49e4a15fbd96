//! The text that is on its way to a writer.
ghost use Rattle.std.specs.Prelude.{◌≡◌, ◌<◌, ◌≤◌, [], ◌++◌, length, true, false, IfOk, OnOk, OnErr};
ghost use Rattle.streams.specs.Output.{AppendsFront, HandsHeldOver, AddsText, HoldsText};

use crate::output::{Refused, write_text};
use std::alloc::{AllocError, Global};
use std::io::Write;
use std::marker::Model;

/// The most bytes that are held.
const HELD_LIMIT: usize = 65_536;

/// A text that a writer has not been offered yet: 65,536 bytes at most, whose memory is set aside
/// when it is made.
#[derive(Drop)]
pub struct HeldText {
    text: Vec<u8>,
}

impl Model for HeldText {
    ghost use Rattle.std.specs.Prelude.{◌≤◌, ℕ, List, length, vec_capacity};

    ghost Value = { List ℕ };

    ghost view = { λ held. held.text.items };

    ghost invariant = { λ held. (length held.text.items ≤ 65536) × (65536 ≤ vec_capacity held.text) };
}

impl HeldText {
    /// Holds nothing.
    pub fn new(alloc: Global) -> Result<Self, AllocError>
        ensures { IfOk result (λ held. held ≡ []) }
    {
        let text = Vec::with_capacity(alloc, HELD_LIMIT)?;
        Ok(HeldText { text })
    }

    /// Whether nothing is held.
    pub fn is_empty(&self) -> bool
        ensures yes { result ≡ true → self.now ≡ [] }
        ensures no { result ≡ false → 0 < length self.now }
    {
        self.text.is_empty()
    }

    /// Hands all that is held to the writer. A refusal leaves a proper front of it in the writer.
    pub fn hand_over<W: Write>(&mut self, out: &mut W) -> Result<(), Refused>
        ensures { HandsHeldOver (W.contents out.old) (W.contents out.new) self.old self.new result }
    {
        write_text(out, self.text.as_slice())?;
        self.text.clear();
        Ok(())
    }

    /// Holds one more piece of text. Where it has no room, all that is held is handed to the writer
    /// first. A refusal is as for `hand_over`.
    pub fn add<W: Write>(&mut self, text: &[u8], out: &mut W) -> Result<(), Refused>
        requires { length text.now ≤ 65536 }
        ensures added { OnOk result (AddsText (W.contents out.old)
            (W.contents out.new) self.old self.new text.now) }
        ensures refused { OnErr result (AppendsFront (W.contents out.old) (W.contents out.new) self.old) }
    {
        if HELD_LIMIT - self.text.len() < text.len() {
            self.hand_over(out)?;
        }
        let _ = self.text.extend_from_slice(text);
        Ok(())
    }

    /// Holds one more piece of text, of any length. One that is longer than all that can be held is
    /// written at once, after what was held. A refusal leaves a proper front of both in the writer.
    pub fn hold<W: Write>(&mut self, text: &[u8], out: &mut W) -> Result<(), Refused>
        ensures held { OnOk result (HoldsText (W.contents out.old)
            (W.contents out.new) self.old self.new text.now) }
        ensures refused { OnErr result (AppendsFront (W.contents out.old) (W.contents out.new)
            (self.old ++ text.now)) }
    {
        if text.len() <= HELD_LIMIT {
            return self.add(text, out);
        }
        match self.hand_over(out) {
            Ok(()) => write_text(out, text),
            Err(refused) => Err(refused),
        }
    }
}
