//! The faults of a deck that is refused.
ghost use Rattle.std.specs.Prelude.{◌≢◌, ◌≤◌, [], List, ℕ, length, All, IfOk};
ghost use Rattle.std.specs.List.Sorted.{IsNonDecreasingBy};
ghost use Rattle.deck_listing.specs.Told.{TellsOf, SaysOf, AreTold, AreFurther};

use crate::diagnosis::{Diagnosis, diagnosis_of};
use crate::later::later_faults;
use deck_messages::message_of;
use deck_parser::DeckFault;
use deck_reader::read_deck_told;
use refused_deck::Message;
use std::alloc::{AllocError, Global};

/// The most faults that are told behind the first one.
const MOST_FURTHER: usize = 19;

/// What is told of a refused deck: why the first of its faults is one, which the reader tells; and
/// behind it further faults, in the order of their lines.
#[derive(Debug, Drop)]
pub struct DeckFaults {
    pub first: Diagnosis,
    pub further: Vec<Diagnosis>,
}

/// What is told of the fault that the reader tells of a deck. `AllocError`: for want of memory, which
/// alone can make a second reading tell another one.
fn first_of(alloc: Global, bytes: &[u8], fault: DeckFault) -> Result<Diagnosis, AllocError>
    ensures tells { IfOk result (TellsOf bytes.now) }
    ensures says { IfOk result (SaysOf fault) }
{
    let read = read_deck_told(alloc, bytes);
    if let Err(refusal) = &read {
        if DeckFault::from(refusal.refusal) == fault {
            let message = message_of(alloc, bytes, refusal)?;
            return Ok(diagnosis_of(bytes, &message));
        }
    }
    Err(AllocError)
}

/// What is told of a deck by the first of these messages, in their order.
fn told_of(alloc: Global, bytes: &[u8], messages: &[Message]) -> Result<Vec<Diagnosis>, AllocError>
    ensures tells { IfOk result (λ told. All (TellsOf bytes.now) told.items) }
    ensures few { IfOk result (λ told. length told.items ≤ 19) }
{
    let mut told = Vec::new(alloc);
    for message in messages {
        if told.len() < MOST_FURTHER {
            told.push(diagnosis_of(bytes, message))?;
        }
    }
    Ok(told)
}

/// What is told of further faults, in the order of their lines.
fn further_of(alloc: Global, bytes: &[u8]) -> Result<Vec<Diagnosis>, AllocError>
    ensures { IfOk result (λ further. AreFurther bytes.now further.items) }
{
    let messages = later_faults(alloc, bytes)?;
    let mut further = told_of(alloc, bytes, &messages)?;
    further.sort_by_key(|told| told.line)?;
    Ok(further)
}

/// Why a deck is refused, in words, where the reader tells this fault of it. It is read again for
/// that. Where memory is wanting for the further faults, the first one is told alone; where it is
/// wanting for that, it is `AllocError`.
pub fn diagnose(alloc: Global, bytes: &[u8], fault: DeckFault) -> Result<DeckFaults, AllocError>
    ensures { IfOk result (AreTold bytes.now fault) }
{
    let first = first_of(alloc, bytes, fault)?;
    let further = match further_of(alloc, bytes) {
        Ok(further) => further,
        Err(_) => Vec::new(alloc),
    };
    Ok(DeckFaults { first, further })
}
