//! The parts of a transaction.
ghost use Rattle.std.specs.Prelude.{◌≡◌, ◌++◌, IfOk, OnOk, flat_map, length, map};
ghost use Rattle.bt_demand.specs.Parts.{parts_of};
ghost use Rattle.bt_demand.specs.View.{tree};
ghost use Rattle.bt_outputs.specs.Asked.{asked};
ghost use Rattle.bt_parts.specs.Parts as spec;

use crate::filling::{fill, records};
use crate::route::route;
use crate::supply::Supply;
use bt_contexts::This;
use bt_demand::routes::Routed;
use bt_items::message;
use bt_mappings::Spot;
use bt_messages::messages::place;
use bt_outputs::{Output, Shift};
use bt_ports::NoMemory;
use bt_ports::origins::Origins;
use bt_ports::parts::Item;
use bt_ports::sequence::Sequence;
use bt_proc::{Batch, Batches, Piece};
use bt_value::Msg;
use std::alloc::Global;

// A message as the part that it becomes. Its bytes go into the last of its records, and are copied into the others.
fn part(alloc: Global, output: &Output, piece: Piece, spot: Spot) -> Result<Routed, NoMemory>
    ensures from { IfOk result (λ r. r.from ≡ piece.from) }
    ensures demand { IfOk result (λ r. tree r.demand ≡ asked output.now piece.msg spot) }
{
    let Piece { msg, from } = piece;
    let shift = Shift {
        leaves: 0,
        holds: 0,
    };
    let mut demand = route(alloc, output, shift, &msg, This::Content, spot)?;
    let left = records(&demand)?;
    let Msg { content, .. } = msg;
    let mut supply = Supply {
        bytes: content,
        left,
    };
    fill(alloc, &mut demand, &mut supply)?;
    Ok(Routed { from, demand })
}

// Puts the parts of a batch at the end.
fn push_batch(
    alloc: Global,
    output: &Output,
    batch: Batch,
    moment: u64,
    parts: &mut Sequence<Routed>,
) -> Result<(), NoMemory>
    ensures { let more = spec.parts_in output.now moment batch.items in
        OnOk result (parts_of parts.new.list ≡ parts_of parts.old.list ++ more) }
{
    let size = place(batch.len())?;
    let mut index = 0;
    for piece in batch {
        let spot = Spot {
            index: place(index)?,
            size,
            moment,
        };
        let routed = part(alloc, output, piece, spot)?;
        parts.push(routed)?;
        index += 1;
    }
    Ok(())
}

/// Puts the parts of batches at the end.
pub(crate) fn push_batches(
    alloc: Global,
    output: &Output,
    batches: Batches,
    moment: u64,
    parts: &mut Sequence<Routed>,
) -> Result<(), NoMemory>
    ensures { let more = flat_map (spec.parts_in output.now moment) (map (λ b. b.items) batches.items) in
        OnOk result (parts_of parts.new.list ≡ parts_of parts.old.list ++ more) }
{
    for batch in batches {
        push_batch(alloc, output, batch, moment, parts)?;
    }
    Ok(())
}

/// The items of a transaction as the messages that they begin as.
pub(crate) fn pieces(alloc: Global, items: &[Item]) -> Result<Batch, NoMemory>
    ensures { IfOk result (λ b. b.items ≡ spec.pieces_from 0 items.now) }
{
    let mut batch = Vec::with_capacity(alloc, items.len())?;
    let mut number = 0;
    for item in items {
        let piece = Piece {
            msg: message(alloc, item)?,
            from: Origins::make(alloc, number)?,
        };
        batch.push(piece)?;
        number += 1;
    }
    Ok(batch)
}
