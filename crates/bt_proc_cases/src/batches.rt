//! Batches from JSON.

use crate::texts::{elements, member, text};
use crate::wrong::Wrong;
use bt_ports::blob::Blob;
use bt_ports::origins::Origins;
use bt_ports::text::Text;
use bt_proc::{Batch, Piece};
use bt_value::{Fields, Members, Msg, Val, copy_members, has_bytes, read_json, write_json};
use std::alloc::Global;

/// The batch of a list of messages.
pub(crate) fn read(alloc: Global, line: &str) -> Result<Batch, Wrong> {
    match read_json(alloc, line.as_bytes()) {
        Ok(Val::Obj(fields)) => numbered(alloc, member(&fields, "numbered")?),
        Ok(v) => batch(alloc, elements(&v)?),
        Err(_) => Err(Wrong::NoCase),
    }
}

fn push(alloc: Global, batch: &mut Batch, msg: Msg) -> Result<(), Wrong> {
    let Ok(number) = u64::try_from(batch.len()) else {
        return Err(Wrong::NoCase);
    };
    let from = Origins::make(alloc, number)?;
    match batch.push(Piece { msg, from }) {
        Ok(()) => Ok(()),
        Err(_) => Err(Wrong::NoMemory),
    }
}

fn bare(alloc: Global, content: Blob) -> Msg {
    Msg {
        content,
        meta: Fields::new(alloc),
        flag: None,
    }
}

fn numbered(alloc: Global, count: &Val) -> Result<Batch, Wrong> {
    let Val::Int(count) = count else {
        return Err(Wrong::NoCase);
    };
    let Ok(count) = u32::try_from(*count) else {
        return Err(Wrong::NoCase);
    };
    let mut batch = Vec::new(alloc);
    for n in 0..count {
        let content = format!(in alloc; "{{\"n\":{n}}}")?;
        push(
            alloc,
            &mut batch,
            bare(alloc, Blob::from_vec(content.into_bytes())),
        )?;
    }
    Ok(batch)
}

fn batch(alloc: Global, messages: &[Val]) -> Result<Batch, Wrong> {
    let mut batch = Vec::new(alloc);
    for v in messages {
        push(alloc, &mut batch, message(alloc, v)?)?;
    }
    Ok(batch)
}

fn content(alloc: Global, v: &Val) -> Result<Blob, Wrong> {
    if let Val::Str(t) = v {
        return Ok(Blob::make(alloc, t.as_str().as_bytes())?);
    }
    if has_bytes(v) {
        return Err(Wrong::NoCase);
    }
    Ok(write_json(alloc, v)?)
}

fn meta(alloc: Global, fields: &Members) -> Result<Members, Wrong> {
    match fields.find("meta") {
        Some(Val::Obj(m)) => Ok(copy_members(alloc, m)?),
        _ => Ok(Fields::new(alloc)),
    }
}

fn flag(alloc: Global, fields: &Members) -> Result<Option<Text>, Wrong> {
    match fields.find("flag") {
        Some(v) => Ok(Some(Text::make(alloc, text(v)?)?)),
        None => Ok(None),
    }
}

fn message(alloc: Global, v: &Val) -> Result<Msg, Wrong> {
    if let Val::Obj(fields) = v {
        if let Some(inside) = fields.find("content") {
            return Ok(Msg {
                content: content(alloc, inside)?,
                meta: meta(alloc, fields)?,
                flag: flag(alloc, fields)?,
            });
        }
    }
    Ok(bare(alloc, content(alloc, v)?))
}
