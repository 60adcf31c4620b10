//! Batches as lines.

use crate::wrong::Wrong;
use bt_ports::blob::Blob;
use bt_ports::text::Text;
use bt_proc::{Batches, Piece};
use bt_value::{Fields, Msg, Val, copy_members, has_bytes, read_json, write_json};
use sqlite_items::Items;
use std::alloc::Global;

/// How many messages of a batch are shown at most.
const MOST: usize = 9;

fn lossy(alloc: Global, bytes: &[u8]) -> Result<Text, Wrong> {
    let shown = String::from_utf8_lossy(alloc, bytes)?;
    Ok(Text::make(alloc, shown.as_str())?)
}

// A content: JSON as it is, and anything else as a text.
fn content(alloc: Global, bytes: &Blob) -> Result<Val, Wrong> {
    match read_json(alloc, bytes.as_slice()) {
        Ok(Val::Str(_)) | Err(_) => Ok(Val::Str(lossy(alloc, bytes.as_slice())?)),
        Ok(v) => Ok(v),
    }
}

fn message(alloc: Global, msg: &Msg) -> Result<Val, Wrong> {
    let content = content(alloc, &msg.content)?;
    if msg.flag.is_none() && msg.meta.as_slice().is_empty() {
        return Ok(content);
    }
    let mut fields = Fields::new(alloc);
    fields.put(Text::make(alloc, "content")?, content)?;
    if let Some(t) = &msg.flag {
        fields.put(
            Text::make(alloc, "flag")?,
            Val::Str(Text::make(alloc, t.as_str())?),
        )?;
    }
    if !msg.meta.as_slice().is_empty() {
        let meta = copy_members(alloc, &msg.meta)?;
        fields.put(Text::make(alloc, "meta")?, Val::Obj(meta))?;
    }
    Ok(Val::Obj(fields))
}

fn origins(alloc: Global, p: &Piece) -> Result<Val, Wrong> {
    let mut numbers = Items::new(alloc);
    for n in p.from.as_slice() {
        match i64::try_from(*n) {
            Ok(n) => numbers.push(Val::Int(n))?,
            Err(_) => return Err(Wrong::NoCase),
        }
    }
    Ok(Val::Arr(numbers))
}

fn json(alloc: Global, v: &Val) -> Result<Text, Wrong> {
    if has_bytes(v) {
        return Ok(Text::make(alloc, "bytes within")?);
    }
    let bytes = write_json(alloc, v)?;
    lossy(alloc, bytes.as_slice())
}

fn listed(alloc: Global, pieces: &[Piece]) -> Result<String, Wrong> {
    let mut messages = Items::new(alloc);
    let mut from = Items::new(alloc);
    for p in pieces {
        messages.push(message(alloc, &p.msg)?)?;
        from.push(origins(alloc, p)?)?;
    }
    let messages = json(alloc, &Val::Arr(messages))?;
    let from = json(alloc, &Val::Arr(from))?;
    Ok(format!(in alloc; "  {} from {}\n", messages.as_str(), from.as_str())?)
}

fn outlined(alloc: Global, pieces: &[Piece]) -> Result<String, Wrong> {
    let (Some(first), Some(last)) = (pieces.first(), pieces.last()) else {
        return listed(alloc, pieces);
    };
    let count = pieces.len();
    let first = json(alloc, &message(alloc, &first.msg)?)?;
    let last = json(alloc, &message(alloc, &last.msg)?)?;
    Ok(format!(in alloc;
        "  {count} messages: {} to {}\n",
        first.as_str(),
        last.as_str()
    )?)
}

fn line(alloc: Global, pieces: &[Piece]) -> Result<String, Wrong> {
    if pieces.len() <= MOST {
        listed(alloc, pieces)
    } else {
        outlined(alloc, pieces)
    }
}

/// The batches, each on a line.
pub(crate) fn batches(alloc: Global, all: Batches) -> Result<String, Wrong> {
    let mut text = String::new(alloc);
    if all.is_empty() {
        text.push_str("  no batch\n")?;
    }
    for batch in &all {
        let line = line(alloc, batch.as_slice())?;
        text.push_str(line.as_str())?;
    }
    Ok(text)
}
