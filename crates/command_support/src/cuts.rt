//! The cuts of a text: numbers with commas between.
ghost use Rattle.std.specs.Prelude.{◌≡◌, None};
ghost use Rattle.std.specs.Option.{IfSome};
ghost use Rattle.command_words.specs.Asks.{IsNumber};
ghost use Rattle.command_support.specs.Cuts.{AreCuts};
ghost use Rattle.command_support.specs.Forms.{AddsNumber, IsNoNumber, IsNoCuts, ComesOfCuts};

use crate::fault::CommandFault;
use crate::form_fault::FormFault;
use std::alloc::Global;

/// The number that a text is.
fn cut_of(text: &str) -> Option<u16>
    ensures some { IfSome result (IsNumber 16 text.now) }
    ensures none { result ≡ None → IsNoNumber text.now }
{
    text.parse().ok()
}

/// Adds the number that a text is.
fn push_cut(cuts: &mut Vec<u16>, text: &str) -> Result<(), CommandFault>
    ensures { ComesOfCuts (λ _. AddsNumber text.now cuts.old.items cuts.new.items) (IsNoNumber text.now)
        result }
{
    let Some(cut) = cut_of(text) else {
        return Err(CommandFault::Form(FormFault::Cuts));
    };
    match cuts.push(cut) {
        Ok(()) => Ok(()),
        Err(_) => Err(CommandFault::Memory),
    }
}

/// The cuts of a text. `Form`: between two commas, or before the first or behind the last one, is
/// no number up to 65,535. `Memory`.
pub fn read_cuts(alloc: Global, text: &str) -> Result<Vec<u16>, CommandFault>
    ensures { ComesOfCuts (λ cuts. AreCuts text.now cuts.items) (IsNoCuts text.now) result }
{
    let mut cuts = Vec::new(alloc);
    let mut rest = text;
    'more: while let Some((front, behind)) = rest.split_once(',') {
        match push_cut(&mut cuts, front) {
            Ok(()) => rest = behind,
            Err(fault) => return Err(fault),
        }
    }
    match push_cut(&mut cuts, rest) {
        Ok(()) => Ok(cuts),
        Err(fault) => Err(fault),
    }
}
