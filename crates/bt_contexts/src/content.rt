//! Contents as documents, and documents as contents.
ghost use Rattle.std.specs.Prelude.{◌≡◌, IfOk, Err, false};
ghost use Rattle.std.specs.Option.{option_copied};
ghost use Rattle.bt_value.specs.Plain.{has_bytes};
ghost use Rattle.bt_value.specs.declared.message.Out.TheVariants as out;
ghost use Rattle.bt_meaning.specs.Contents as spec;

use bt_meaning::{ContentFault, Root};
use bt_ports::NoMemory;
use bt_ports::blob::Blob;
use bt_ports::text::Text;
use bt_texts::conversions::written;
use bt_value::{JsonFault, Val, has_bytes, read_json, write_json};
use std::alloc::Global;

/// The value that a content is as JSON, or why it is none. No bytes stand in such a value.
pub fn document(alloc: Global, content: &[u8]) -> Result<Result<Val, ContentFault>, NoMemory>
    ensures reads { IfOk result (λ r. r ≡ spec.document content.now) }
    ensures plain { IfOk result (λ r. IfOk r (λ v. has_bytes v ≡ false)) }
{
    match read_json(alloc, content) {
        Ok(value) => Ok(Ok(value)),
        Err(JsonFault::NotJson) => Ok(Err(ContentFault::NotJson)),
        Err(JsonFault::OutOfProfile) => Ok(Err(ContentFault::OutOfProfile)),
        Err(JsonFault::NoMemory) => Err(NoMemory),
    }
}

/// The text with which `this` fails on a content that is no document.
pub fn this_failure(fault: ContentFault) -> &'static str
    ensures { spec.this_given (Err fault) ≡ out.Failed result.now }
{
    match fault {
        ContentFault::NotJson => "this: not JSON",
        ContentFault::OutOfProfile => "this: number out of profile",
    }
}

/// The text with which `this` fails on a content, and nothing exactly where the content is the JSON
/// text of a value.
pub fn content_fault(alloc: Global, content: &[u8]) -> Result<Option<&'static str>, NoMemory>
    ensures { IfOk result (λ f. option_copied f ≡ spec.this_fault content.now) }
{
    match document(alloc, content)? {
        Ok(_) => Ok(None),
        Err(fault) => Ok(Some(this_failure(fault))),
    }
}

/// The root with which a mapping begins to which a message of this content is handed in.
pub fn handed_root(alloc: Global, content: &[u8]) -> Result<Root, NoMemory>
    ensures { IfOk result (λ r. r ≡ spec.root_given (spec.document content.now)) }
{
    match document(alloc, content)? {
        Ok(value) => Ok(Root::Set(value)),
        Err(ContentFault::NotJson) => Ok(Root::Unread(Text::make(alloc, "root: not JSON")?)),
        Err(ContentFault::OutOfProfile) => Ok(Root::Unread(Text::make(
            alloc,
            "root: number out of profile",
        )?)),
    }
}

/// The compact JSON text of a value, where the bytes in it are text.
fn json(alloc: Global, v: &Val) -> Result<Option<Blob>, NoMemory>
    ensures { IfOk result (λ b. b ≡ spec.json_of v.now) }
{
    if has_bytes(v) {
        written(alloc, v)
    } else {
        Ok(Some(write_json(alloc, v)?))
    }
}

/// A document as content, where the bytes in it are text: a string and bytes as they are, and every
/// other value as its compact JSON.
#[tactic(auto, unfolding(bt_meaning::specs::Contents::content_of))]
pub fn content_of(alloc: Global, v: Val) -> Result<Option<Blob>, NoMemory>
    ensures { IfOk result (λ b. b ≡ spec.content_of v) }
{
    match v {
        Val::Str(s) => Ok(Some(Blob::from_vec(s.into_string().into_bytes()))),
        Val::Bytes(b) => Ok(Some(b)),
        other => json(alloc, &other),
    }
}
