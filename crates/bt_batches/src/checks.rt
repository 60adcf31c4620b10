//! Messages gathered by a check.
ghost use Rattle.std.specs.Prelude.{◌≡◌, ◌++◌, ◌∷◌, [], IfOk, OnOk};
ghost use Rattle.std.specs.List.{enumerate_from};
ghost use Rattle.bt_batches.specs.Grouping as spec;

use crate::piece::{Batch, Piece};
use bt_mappings::{Spot, check};
use bt_messages::messages::place;
use bt_ports::NoMemory;
use bt_ready::Ready;
use std::alloc::Global;

/// A message with its place in a batch.
pub type Numbered = (u32, Piece);

/// The messages that pass a check, and the others.
#[derive(Drop)]
pub struct Sifted {
    /// Those that pass.
    pub passing: Vec<Numbered>,
    /// Those that don't.
    pub others: Vec<Numbered>,
}

/// The messages with their places.
pub fn numbered(alloc: Global, batch: Batch) -> Result<Vec<Numbered>, NoMemory>
    ensures { IfOk result (λ ps. ps.items ≡ enumerate_from 0 batch.items) }
{
    let size = place(batch.len())?;
    let mut messages = Vec::with_capacity(alloc, size as usize)?;
    let mut index = 0;
    for p in batch {
        messages.push((index, p))?;
        index += 1;
    }
    Ok(messages)
}

/// The messages without their places.
pub fn unnumbered(alloc: Global, messages: Vec<Numbered>) -> Result<Batch, NoMemory>
    ensures { IfOk result (λ b. b.items ≡ spec.pieces_of messages.items) }
{
    let mut batch = Vec::with_capacity(alloc, messages.len())?;
    for message in messages {
        batch.push(message.1)?;
    }
    Ok(batch)
}

// Puts a message to those that pass a check, or to the others.
fn sift(
    alloc: Global,
    r: &Ready,
    size: u32,
    moment: u64,
    message: Numbered,
    sifted: &mut Sifted,
) -> Result<(), NoMemory>
    ensures passing { OnOk result (sifted.new.passing.items ≡ sifted.old.passing.items
        ++ spec.passing r.now size moment (message ∷ [])) }
    ensures others { OnOk result (sifted.new.others.items ≡ sifted.old.others.items
        ++ spec.others r.now size moment (message ∷ [])) }
{
    let spot = Spot {
        index: message.0,
        size,
        moment,
    };
    if check(alloc, r, &message.1.msg, spot)? {
        sifted.passing.push(message)?;
    } else {
        sifted.others.push(message)?;
    }
    Ok(())
}

/// The messages that pass a check, and the others, both in their order.
pub fn sift_all(
    alloc: Global,
    r: &Ready,
    size: u32,
    moment: u64,
    messages: Vec<Numbered>,
) -> Result<Sifted, NoMemory>
    ensures passing { IfOk result (λ s. s.passing.items ≡ spec.passing r.now size moment messages.items) }
    ensures others { IfOk result (λ s. s.others.items ≡ spec.others r.now size moment messages.items) }
{
    let mut sifted = Sifted {
        passing: Vec::new(alloc),
        others: Vec::new(alloc),
    };
    for message in messages {
        sift(alloc, r, size, moment, message, &mut sifted)?;
    }
    Ok(sifted)
}
