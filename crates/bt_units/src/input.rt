//! The batch that a test puts in.
ghost use Rattle.std.specs.Prelude.{◌≡◌, ◌++◌, ◌∷◌, [], IfOk, OnOk, codes};
ghost use Rattle.bt_units.specs.Fields as fields;
ghost use Rattle.bt_units.specs.Input as spec;

use crate::fields::{field, input_batch, string};
use bt_batches::{Batch, Piece};
use bt_ports::NoMemory;
use bt_ports::blob::Blob;
use bt_ports::origins::Origins;
use bt_value::{Fields, Members, Msg, Val, copy_members, has_bytes, write_json};
use std::alloc::Global;

/// The batch that a test puts in, in which the message at place i has the origin i.
pub(crate) fn input_of(alloc: Global, test: &Val) -> Result<Batch, NoMemory>
    ensures { IfOk result (λ b. b.items ≡ spec.input_of test.now) }
{
    pieces(alloc, input_batch(test))
}

fn pieces(alloc: Global, messages: &[Val]) -> Result<Batch, NoMemory>
    ensures { IfOk result (λ b. b.items ≡ spec.pieces_from 0 messages.now) }
{
    let mut batch = Vec::new(alloc);
    for (i, v) in messages.iter().enumerate() {
        push(alloc, i, v, &mut batch)?;
    }
    Ok(batch)
}

fn push(alloc: Global, i: usize, v: &Val, batch: &mut Batch) -> Result<(), NoMemory>
    ensures { OnOk result (batch.new.items ≡ batch.old.items ++ record { msg = spec.message v.now; from = i ∷ [] } ∷ []) }
{
    let from = Origins::make(alloc, i as u64)?;
    let msg = message(alloc, v)?;
    batch.push(Piece { msg, from })?;
    Ok(())
}

fn message(alloc: Global, v: &Val) -> Result<Msg, NoMemory>
    ensures { IfOk result (λ m. m ≡ spec.message v.now) }
{
    let content = content_of(alloc, v)?;
    let meta = metadata_of(alloc, v)?;
    Ok(Msg {
        content,
        meta,
        flag: None,
    })
}

fn content_of(alloc: Global, v: &Val) -> Result<Blob, NoMemory>
    ensures { IfOk result (λ b. b ≡ spec.content_of v.now) }
{
    match field(v, "content") {
        Some(content) => Blob::make(alloc, string(content).as_bytes()),
        None => match field(v, "json_content") {
            Some(json) => json_text(alloc, json),
            None => Ok(Blob::new(alloc)),
        },
    }
}

fn json_text(alloc: Global, v: &Val) -> Result<Blob, NoMemory>
    ensures { IfOk result (λ b. b ≡ spec.json_text v.now) }
{
    if has_bytes(v) {
        Ok(Blob::new(alloc))
    } else {
        write_json(alloc, v)
    }
}

fn metadata_of(alloc: Global, v: &Val) -> Result<Members, NoMemory>
    ensures { IfOk result (λ ms. ms ≡ fields.members_of (fields.field (codes "metadata") v.now)) }
{
    match field(v, "metadata") {
        Some(metadata) => members_copied(alloc, metadata),
        None => Ok(Fields::new(alloc)),
    }
}

/// A copy of the members of an object.
pub(crate) fn members_copied(alloc: Global, v: &Val) -> Result<Members, NoMemory>
    ensures { IfOk result (λ ms. ms ≡ fields.members v.now) }
{
    match v {
        Val::Obj(members) => copy_members(alloc, members),
        _ => Ok(Fields::new(alloc)),
    }
}
