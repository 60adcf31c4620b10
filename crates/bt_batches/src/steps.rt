//! A batch's messages through a processor that gives one message or none for each.
ghost use Rattle.std.specs.Prelude.{◌≡◌, ◌++◌, ◌∷◌, [], IfOk, OnOk, Some, map};
ghost use Rattle.std.specs.Option.{option_to_list};
ghost use Rattle.bt_messages.specs.Steps as spec_steps;
ghost use Rattle.bt_batches.specs.Pieces as spec;

use crate::piece::{Batch, Piece};
use bt_messages::{MessageProcessor, step};
use bt_ports::NoMemory;
use bt_ports::origins::Origins;
use bt_value::Msg;
use std::alloc::Global;

/// The messages of a batch in their places, and their origins.
#[derive(Drop)]
struct Apart {
    messages: Vec<Option<Msg>>,
    origins: Vec<Origins>,
}

// Takes the messages of a batch apart from their origins.
fn take_apart(alloc: Global, batch: Batch) -> Result<Apart, NoMemory>
    ensures messages { IfOk result (λ a. a.messages.items ≡ map (λ p. Some p.msg) batch.items) }
    ensures origins { IfOk result (λ a. a.origins.items ≡ spec.origins_of batch.items) }
{
    let mut messages = Vec::with_capacity(alloc, batch.len())?;
    let mut origins = Vec::with_capacity(alloc, batch.len())?;
    for p in batch {
        let Piece { msg, from } = p;
        messages.push(Some(msg))?;
        origins.push(from)?;
    }
    Ok(Apart { messages, origins })
}

// Puts a message, where it is there, behind others.
fn add(message: Option<Msg>, from: Option<Origins>, batch: &mut Batch) -> Result<(), NoMemory>
    ensures { OnOk result (batch.new.items ≡ batch.old.items
        ++ spec.with_origins (message ∷ []) (option_to_list from)) }
{
    if let (Some(msg), Some(from)) = (message, from) {
        batch.push(Piece { msg, from })?;
    }
    Ok(())
}

// Puts messages to their origins.
fn put_together(alloc: Global, a: Apart) -> Result<Batch, NoMemory>
    ensures { IfOk result (λ b. b.items ≡ spec.with_origins a.messages.items a.origins.items) }
{
    let Apart { messages, origins } = a;
    let mut batch = Vec::with_capacity(alloc, messages.len())?;
    let mut origins = origins.into_iter();
    for message in messages {
        add(message, origins.next(), &mut batch)?;
    }
    Ok(batch)
}

// One message, without taking memory for its place.
fn step_one(
    alloc: Global,
    m: &MessageProcessor,
    moment: u64,
    x: Msg,
) -> Result<Option<Msg>, NoMemory>
    ensures { IfOk result (λ y. spec_steps.step m.now moment (Some x ∷ []) ≡ y ∷ []) }
{
    let mut place = [Some(x)];
    step(alloc, m, moment, &mut place)?;
    let [y] = place;
    Ok(y)
}

// One message with its origins.
fn alone(
    alloc: Global,
    m: &MessageProcessor,
    moment: u64,
    p: Piece,
    batch: &mut Batch,
) -> Result<(), NoMemory>
    ensures { OnOk result (batch.new.items ≡ batch.old.items ++ spec.stepped m.now moment (p ∷ [])) }
{
    let Piece { msg, from } = p;
    let message = step_one(alloc, m, moment, msg)?;
    add(message, Some(from), batch)
}

// All messages at once.
fn all(alloc: Global, m: &MessageProcessor, moment: u64, batch: Batch) -> Result<Batch, NoMemory>
    ensures { IfOk result (λ b. b.items ≡ spec.stepped m.now moment batch.items) }
{
    let Apart {
        mut messages,
        origins,
    } = take_apart(alloc, batch)?;
    step(alloc, m, moment, messages.as_mut_slice())?;
    put_together(alloc, Apart { messages, origins })
}

/// A batch through a processor that gives one message or none for each: each message in its place, with its origins,
/// without those that were dropped.
pub fn stepped(
    alloc: Global,
    m: &MessageProcessor,
    moment: u64,
    batch: Batch,
) -> Result<Batch, NoMemory>
    ensures { IfOk result (λ b. b.items ≡ spec.stepped m.now moment batch.items) }
{
    let mut batch = batch;
    if batch.len() != 1 {
        return all(alloc, m, moment, batch);
    }
    if let Some(p) = batch.pop() {
        alone(alloc, m, moment, p, &mut batch)?;
    }
    Ok(batch)
}
