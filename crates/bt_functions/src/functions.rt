//! Functions by their ids.
ghost use Rattle.std.specs.Prelude.{◌≡◌, IfOk};
ghost use Rattle.bt_meaning.specs.Functions as spec;

use crate::moments::now_of;
use crate::ranges::{range_of, taken};
use bt_kinds::kinds::{Kind, wrong};
use bt_kinds::targets::{string, text};
use bt_meaning::Spot;
use bt_ports::NoMemory;
use bt_ports::blob::Blob;
use bt_ports::text::Text;
use bt_value::{FunctionId, Members, Msg, Out, Val, copy};
use sqlite_items::Items;
use std::alloc::Global;

/// The first argument, or nothing where there is none.
fn only(args: Items<Out>) -> Out
    ensures { result ≡ spec.first args }
{
    let mut args = args;
    taken(&mut args)
}

/// The flag's text, or null.
fn error_of(alloc: Global, flag: &Option<Text>) -> Result<Val, NoMemory>
    ensures { IfOk result (λ x. x ≡ spec.error_of flag.now) }
{
    match flag {
        Some(text) => Ok(Val::Str(Text::make(alloc, text.as_str())?)),
        None => Ok(Val::Null),
    }
}

/// The member of metadata under a key, or null.
#[tactic(auto, using(bt_texts::proofs::Utf8::is_text, bt_texts::proofs::Utf8::no_text))]
fn meta_at(alloc: Global, key: &[u8], meta: &Members) -> Result<Val, NoMemory>
    ensures { IfOk result (λ x. x ≡ spec.meta_at key.now meta.now) }
{
    match std::str::from_utf8(key) {
        Ok(key) => match meta.find(key) {
            Some(v) => copy(alloc, v),
            None => Ok(Val::Null),
        },
        Err(_) => Ok(Val::Null),
    }
}

fn meta_of(alloc: Global, meta: &Members, o: Out) -> Result<Out, NoMemory>
    ensures { IfOk result (λ r. r ≡ spec.meta_of meta.now o) }
{
    match o {
        Out::Value(v) => match text(v) {
            Ok(key) => Ok(Out::Value(meta_at(alloc, key.as_slice(), meta)?)),
            Err(kind) => wrong(alloc, "meta", kind),
        },
        Out::Failed(t) => Ok(Out::Failed(t)),
        Out::Deleted => wrong(alloc, "meta", Kind::Deleted),
        Out::Nothing => wrong(alloc, "meta", Kind::Nothing),
    }
}

fn thrown(alloc: Global, o: Out) -> Result<Out, NoMemory>
    ensures { IfOk result (λ r. r ≡ spec.thrown o) }
{
    match o {
        Out::Value(v) => match string(v) {
            Ok(t) => Ok(Out::Failed(t)),
            Err(kind) => wrong(alloc, "throw", kind),
        },
        Out::Failed(t) => Ok(Out::Failed(t)),
        Out::Deleted => wrong(alloc, "throw", Kind::Deleted),
        Out::Nothing => wrong(alloc, "throw", Kind::Nothing),
    }
}

/// What a function gives of what its arguments give, none of which failed.
///
/// The message is the one that came in. A missing argument counts as nothing.
#[tactic(auto, unfolding(bt_meaning::specs::Functions::function))]
pub fn function(
    alloc: Global,
    id: FunctionId,
    args: Items<Out>,
    msg: &Msg,
    spot: Spot,
) -> Result<Out, NoMemory>
    ensures { IfOk result (λ o. o ≡ spec.function id args msg.now spot) }
{
    match id {
        FunctionId::Deleted => Ok(Out::Deleted),
        FunctionId::Nothing => Ok(Out::Nothing),
        FunctionId::Content => Ok(Out::Value(Val::Bytes(Blob::make(
            alloc,
            msg.content.as_slice(),
        )?))),
        FunctionId::Error => Ok(Out::Value(error_of(alloc, &msg.flag)?)),
        FunctionId::Errored => Ok(Out::Value(Val::Bool(msg.flag.is_some()))),
        FunctionId::Meta => meta_of(alloc, &msg.meta, only(args)),
        FunctionId::BatchIndex => Ok(Out::Value(Val::Int(spot.index as i64))),
        FunctionId::BatchSize => Ok(Out::Value(Val::Int(spot.size as i64))),
        FunctionId::Range => range_of(alloc, args),
        FunctionId::Throw => thrown(alloc, only(args)),
        FunctionId::Now => now_of(alloc, spot.moment),
    }
}
