//! Messages taken apart.
ghost use Rattle.std.specs.Prelude.{◌≡◌, ◌==◌, ◌+◌, ◌<◌, ◌++◌, ◌∷◌, [], false, IfOk, IfSome, OnOk, MatchOption, length, take, drop, map};
ghost use Rattle.std.specs.List.{slice_split, flat_map};
ghost use Rattle.std.specs.Option.{option_map_or};
ghost use Rattle.bt_value.specs.Plain.{has_bytes};
ghost use Rattle.bt_value.specs.Reading.{text};
ghost use Rattle.bt_value.specs.declared.val.Val.{out-Val};
ghost use Rattle.bt_meaning.specs.Contents.{document};
ghost use Rattle.bt_batches.specs.Archives as spec;
ghost use Rattle.bt_batches.specs.Pieces.{flagged_piece};

use crate::archive::unread;
use crate::origins::copy;
use crate::piece::{Batch, Piece, flagged};
use bt_mappings::document;
use bt_ports::NoMemory;
use bt_ports::blob::Blob;
use bt_ports::text::Text;
use bt_value::{Msg, Val, Vals, copy_members, write_json};
use memchr::memchr;
use std::alloc::Global;

fn copy_flag(alloc: Global, flag: &Option<Text>) -> Result<Option<Text>, NoMemory>
    ensures { IfOk result (λ f. f ≡ flag.now) }
{
    match flag {
        Some(t) => Ok(Some(Text::make(alloc, t.as_str())?)),
        None => Ok(None),
    }
}

// Puts the same message with another content behind others.
fn push(alloc: Global, p: &Piece, content: Blob, batch: &mut Batch) -> Result<(), NoMemory>
    ensures { OnOk result (batch.new.items ≡ batch.old.items ++ spec.with_contents p.now (content ∷ [])) }
{
    let msg = Msg {
        content,
        meta: copy_members(alloc, &p.msg.meta)?,
        flag: copy_flag(alloc, &p.msg.flag)?,
    };
    let from = copy(alloc, &p.from)?;
    batch.push(Piece { msg, from })?;
    Ok(())
}

// Where the first piece ends, if a line feed ends it.
fn line_end(bytes: &[u8]) -> Option<usize>
    ensures { MatchOption result (slice_split (λ b. b == 10) bytes.now ≡ bytes.now ∷ []) (λ n. (n < length bytes.now)
        × (slice_split (λ b. b == 10) bytes.now ≡ take n bytes.now ∷ slice_split (λ b. b == 10) (drop (n + 1) bytes.now))) }
{
    memchr(b'\n', bytes)
}

// The first piece between line feeds, and the bytes behind its line feed where it has one.
fn cut(bytes: &[u8]) -> (&[u8], Option<&[u8]>)
    ensures split { slice_split (λ b. b == 10) bytes.now
        ≡ result.0.now ∷ option_map_or (λ rest. slice_split (λ b. b == 10) rest.now) result.1 [] }
    ensures shorter { IfSome result.1 (λ rest. length rest.now < length bytes.now) }
{
    match line_end(bytes) {
        Some(n) => (&bytes[..n], Some(&bytes[n + 1..])),
        None => (bytes, None),
    }
}

// Puts the same message with each piece between line feeds behind others.
fn push_lines(alloc: Global, p: &Piece, batch: &mut Batch) -> Result<(), NoMemory>
    ensures { OnOk result (batch.new.items ≡ batch.old.items ++ spec.unarchive_lines p.now) }
{
    let mut rest = Some(p.msg.content.as_slice());
    while let Some(bytes) = rest {
        let (line, more) = cut(bytes);
        push(alloc, p, Blob::make(alloc, line)?, batch)?;
        rest = more;
    }
    Ok(())
}

/// One message for each piece between line feeds, with metadata, flag and origins of the whole. Empty pieces and a last
/// empty one are messages too.
pub fn unarchive_lines(alloc: Global, batch: Batch) -> Result<Batch, NoMemory>
    ensures { IfOk result (λ b. b.items ≡ flat_map spec.unarchive_lines batch.items) }
{
    let mut all = Vec::new(alloc);
    for p in batch {
        push_lines(alloc, &p, &mut all)?;
    }
    Ok(all)
}

// Puts the same message with the JSON text of each element behind others.
fn push_elements(
    alloc: Global,
    p: &Piece,
    elements: &[Val],
    batch: &mut Batch,
) -> Result<(), NoMemory>
    requires { spec.have_bytes elements.now ≡ false }
    ensures { OnOk result (batch.new.items ≡ batch.old.items ++ spec.with_contents p.now (map text elements.now)) }
{
    for element in elements {
        push(alloc, p, write_json(alloc, element)?, batch)?;
    }
    Ok(())
}

// Puts a message with a flag behind others.
fn push_flagged(p: Piece, t: Text, batch: &mut Batch) -> Result<(), NoMemory>
    ensures { OnOk result (batch.new.items ≡ batch.old.items ++ flagged_piece t p ∷ []) }
{
    batch.push(flagged(p, t))?;
    Ok(())
}

// The elements of a value that is a list.
fn list(alloc: Global, v: Val) -> Result<Result<Vals, Text>, NoMemory>
    requires { has_bytes v ≡ false }
    ensures list { IfOk result (λ r. r ≡ spec.elements_at (out-Val v)) }
    ensures plain { IfOk result (λ r. IfOk r (λ xs. spec.have_bytes xs ≡ false)) }
{
    match v {
        Val::Arr(elements) => Ok(Ok(elements)),
        _ => Ok(Err(Text::make(alloc, "unarchive: not an array")?)),
    }
}

// The elements of a content that is the JSON text of a list, or what is wrong with it.
fn elements(alloc: Global, content: &[u8]) -> Result<Result<Vals, Text>, NoMemory>
    ensures elements { IfOk result (λ r. r ≡ spec.elements (document content.now)) }
    ensures plain { IfOk result (λ r. IfOk r (λ xs. spec.have_bytes xs ≡ false)) }
{
    match document(alloc, content)? {
        Ok(value) => list(alloc, value),
        Err(fault) => Ok(Err(unread(alloc, "unarchive", fault)?)),
    }
}

// Puts the same message with each element of its list behind others, or the message with what is wrong with it.
fn push_array(alloc: Global, p: Piece, batch: &mut Batch) -> Result<(), NoMemory>
    ensures { OnOk result (batch.new.items ≡ batch.old.items ++ spec.unarchive_json p) }
{
    match elements(alloc, p.msg.content.as_slice())? {
        Ok(values) => push_elements(alloc, &p, values.as_slice(), batch),
        Err(t) => push_flagged(p, t, batch),
    }
}

/// One message for the JSON text of each element, with metadata, flag and origins of the whole. A message that is no
/// list is flagged with what is wrong with it.
pub fn unarchive_json(alloc: Global, batch: Batch) -> Result<Batch, NoMemory>
    ensures { IfOk result (λ b. b.items ≡ flat_map spec.unarchive_json batch.items) }
{
    let mut all = Vec::new(alloc);
    for p in batch {
        push_array(alloc, p, &mut all)?;
    }
    Ok(all)
}
