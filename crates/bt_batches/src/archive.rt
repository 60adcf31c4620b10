//! Messages put into one.
ghost use Rattle.std.specs.Prelude.{◌≡◌, ◌++◌, ◌∷◌, [], codes, false, IfOk, OnOk, map};
ghost use Rattle.std.specs.List.{join_with_byte, flat_map};
ghost use Rattle.bt_value.specs.Plain.{has_bytes};
ghost use Rattle.bt_value.specs.Reading.{text};
ghost use Rattle.bt_value.specs.declared.val.Val.TheVariants as v;
ghost use Rattle.bt_meaning.specs.Contents as contents;
ghost use Rattle.bt_batches.specs.Archives as spec;
ghost use Rattle.bt_batches.specs.Pieces.{flagged_piece};

use crate::origins::{add, union};
use crate::piece::{Batch, Piece, one};
use bt_mappings::document;
use bt_meaning::ContentFault;
use bt_ports::NoMemory;
use bt_ports::blob::Blob;
use bt_ports::text::Text;
use bt_value::{Msg, Val, Vals, deeper, write_json};
use sqlite_items::Items;
use std::alloc::Global;
use std::collections::VecDeque;

// How deep a document may nest that becomes an element of an array.
const DEEPEST: u32 = 126;

/// Why a content is no document, as the processor of that name says it.
pub(crate) fn unread(alloc: Global, name: &str, fault: ContentFault) -> Result<Text, NoMemory>
    ensures { IfOk result (λ t. t ≡ spec.unread name.now fault) }
{
    let mut said = Text::make(alloc, name)?;
    match fault {
        ContentFault::NotJson => said.push_str(": not JSON")?,
        ContentFault::OutOfProfile => said.push_str(": number out of profile")?,
    }
    Ok(said)
}

// One message in the place of all, with the first one's metadata, the origins of all and no flag.
fn archived(alloc: Global, content: Blob, batch: Batch) -> Result<Batch, NoMemory>
    ensures { IfOk result (λ b. b.items ≡ spec.archived content batch.items) }
{
    let mut pieces = batch.into_iter();
    let Some(first) = pieces.next() else {
        return Ok(Vec::new(alloc));
    };
    let Piece { msg, from } = first;
    let Msg { meta, .. } = msg;
    let mut run = from;
    let mut runs = VecDeque::new(alloc);
    for p in pieces {
        let Piece { from, .. } = p;
        add(&mut run, &mut runs, from)?;
    }
    let from = union(run, runs)?;
    let msg = Msg {
        content,
        meta,
        flag: None,
    };
    let batch = one(alloc, Piece { msg, from })?;
    Ok(batch)
}

// Puts contents behind another, each behind a line feed.
fn push_lines(content: &mut Blob, batch: &[Piece]) -> Result<(), NoMemory>
    ensures { OnOk result (content.new ≡ content.old ++ flat_map (λ c. 10 ∷ c) (spec.contents batch.now)) }
{
    for p in batch {
        content.push_all(b"\n")?;
        content.push_all(p.msg.content.as_slice())?;
    }
    Ok(())
}

// A first content with the others behind it, each behind a line feed.
fn with_lines(alloc: Global, first: &[u8], rest: &[Piece]) -> Result<Blob, NoMemory>
    ensures { IfOk result (λ b. b ≡ first.now ++ flat_map (λ c. 10 ∷ c) (spec.contents rest.now)) }
{
    let mut content = Blob::make(alloc, first)?;
    push_lines(&mut content, rest)?;
    Ok(content)
}

// The contents with a line feed between each two.
fn joined(alloc: Global, batch: &[Piece]) -> Result<Blob, NoMemory>
    ensures { IfOk result (λ b. b ≡ join_with_byte 10 (spec.contents batch.now)) }
{
    match batch {
        [] => Ok(Blob::new(alloc)),
        [first, rest @ ..] => {
            let content = with_lines(alloc, first.msg.content.as_slice(), rest)?;
            Ok(content)
        }
    }
}

/// One message with the contents of all, with a line feed between each two. It has the first one's metadata, the
/// origins of all and no flag.
pub fn archive_lines(alloc: Global, batch: Batch) -> Result<Batch, NoMemory>
    ensures { IfOk result (λ b. b.items ≡ spec.archive_lines batch.items) }
{
    let content = joined(alloc, batch.as_slice())?;
    archived(alloc, content, batch)
}

// The document that a content is, where it may be an element, or what is wrong with it.
fn element(alloc: Global, content: &[u8]) -> Result<Result<Val, Text>, NoMemory>
    ensures element { IfOk result (λ r. r ≡ spec.element_of (contents.document content.now)) }
    ensures plain { IfOk result (λ r. IfOk r (λ x. has_bytes x ≡ false)) }
{
    match document(alloc, content)? {
        Ok(value) => {
            if deeper(&value, DEEPEST) {
                Ok(Err(Text::make(alloc, "archive: too deep")?))
            } else {
                Ok(Ok(value))
            }
        }
        Err(fault) => Ok(Err(unread(alloc, "archive", fault)?)),
    }
}

// The documents, or what is wrong with the first that can't be an element.
#[tactic(auto, using(crate::proofs::Contents::behind_more))]
fn documents(alloc: Global, batch: &[Piece]) -> Result<Result<Vals, Text>, NoMemory>
    ensures documents { IfOk result (λ r. r ≡ spec.documents batch.now) }
    ensures plain { IfOk result (λ r. IfOk r (λ xs. spec.have_bytes xs ≡ false)) }
{
    let mut values = Items::new(alloc);
    for p in batch {
        match element(alloc, p.msg.content.as_slice())? {
            Ok(value) => values.push(value)?,
            Err(t) => return Ok(Err(t)),
        }
    }
    Ok(Ok(values))
}

// Flags all messages with one text.
fn flag_all(alloc: Global, t: &str, batch: &mut [Piece]) -> Result<(), NoMemory>
    ensures { OnOk result (batch.new ≡ map (flagged_piece t.now) batch.old) }
{
    for p in batch.iter_mut() {
        p.msg.flag = Some(Text::make(alloc, t)?);
    }
    Ok(())
}

// The JSON text of a list.
fn array(alloc: Global, values: Vals) -> Result<Blob, NoMemory>
    requires { spec.have_bytes values ≡ false }
    ensures { IfOk result (λ b. b ≡ text (v.Arr values)) }
{
    write_json(alloc, &Val::Arr(values))
}

/// One message with the list of all documents. It has the first one's metadata, the origins of all and no flag.
///
/// Where a content is no document, or one with which the list would nest too deep, all messages stay and are flagged
/// with what is wrong with the first such.
pub fn archive_json(alloc: Global, batch: Batch) -> Result<Batch, NoMemory>
    ensures { IfOk result (λ b. b.items ≡ spec.archive_json batch.items) }
{
    let mut batch = batch;
    match documents(alloc, batch.as_slice())? {
        Ok(values) => {
            let content = array(alloc, values)?;
            archived(alloc, content, batch)
        }
        Err(t) => {
            flag_all(alloc, t.as_str(), batch.as_mut_slice())?;
            Ok(batch)
        }
    }
}
