//! What values hold: the part that is wanted, or the kind of a value that has none.
ghost use Rattle.std.specs.Prelude.{◌≡◌, IfOk};
ghost use Rattle.bt_kinds.specs.Targets as spec;

use crate::kinds::{Kind, kind_of};
use bt_ports::NoMemory;
use bt_ports::blob::Blob;
use bt_ports::text::Text;
use bt_value::{Members, Val, Vals};
use sqlite_items::Items;
use std::alloc::Global;

/// A text: a string or bytes.
#[derive(Drop)]
pub enum Chunk {
    /// A string.
    Str(Text),
    /// Bytes.
    Bytes(Blob),
}

impl Chunk {
    /// The bytes of the text.
    pub fn as_slice(&self) -> &[u8]
        ensures { result.now ≡ spec.bytes_of self.now }
    {
        match self {
            Chunk::Str(s) => s.as_str().as_bytes(),
            Chunk::Bytes(b) => b.as_slice(),
        }
    }

    /// Whether it is a string.
    pub fn is_string(&self) -> bool
        ensures { result ≡ spec.is_string self.now }
    {
        match self {
            Chunk::Str(_) => true,
            Chunk::Bytes(_) => false,
        }
    }

    /// The text as a value.
    pub fn into_value(self) -> Val
        ensures { result ≡ spec.value_of self }
    {
        match self {
            Chunk::Str(s) => Val::Str(s),
            Chunk::Bytes(b) => Val::Bytes(b),
        }
    }
}

/// The boolean that a value is, or its kind.
#[tactic(auto, unfolding(crate::specs::Targets::boolean))]
pub fn boolean(v: &Val) -> Result<bool, Kind>
    ensures { result ≡ spec.boolean v.now }
{
    match v {
        Val::Bool(b) => Ok(*b),
        _ => Err(kind_of(v)),
    }
}

/// The number that a value is, or its kind.
#[tactic(auto, unfolding(crate::specs::Targets::number))]
pub fn number(v: &Val) -> Result<i64, Kind>
    ensures { result ≡ spec.number v.now }
{
    match v {
        Val::Int(n) => Ok(*n),
        _ => Err(kind_of(v)),
    }
}

/// The string that a value is, or its kind.
#[tactic(auto, unfolding(crate::specs::Targets::string))]
pub fn string(v: Val) -> Result<Text, Kind>
    ensures { result ≡ spec.string v }
{
    match v {
        Val::Str(s) => Ok(s),
        other => Err(kind_of(&other)),
    }
}

/// The text that a value is, or its kind.
#[tactic(auto, unfolding(crate::specs::Targets::text))]
pub fn text(v: Val) -> Result<Chunk, Kind>
    ensures { result ≡ spec.text v }
{
    match v {
        Val::Str(s) => Ok(Chunk::Str(s)),
        Val::Bytes(b) => Ok(Chunk::Bytes(b)),
        other => Err(kind_of(&other)),
    }
}

/// The list that a value is, or its kind.
#[tactic(auto, unfolding(crate::specs::Targets::array))]
pub fn array(v: Val) -> Result<Vals, Kind>
    ensures { result ≡ spec.array v }
{
    match v {
        Val::Arr(items) => Ok(items),
        other => Err(kind_of(&other)),
    }
}

/// The members of the object that a value is, or its kind.
#[tactic(auto, unfolding(crate::specs::Targets::object))]
pub fn object(v: Val) -> Result<Members, Kind>
    ensures { result ≡ spec.object v }
{
    match v {
        Val::Obj(members) => Ok(members),
        other => Err(kind_of(&other)),
    }
}

/// The numbers of a list, or the kind of the first element that is none.
#[tactic(auto, using(crate::proofs::Gathered::after_nothing, crate::proofs::Gathered::after_one))]
pub fn numbers(alloc: Global, items: &Vals) -> Result<Result<Items<i64>, Kind>, NoMemory>
    ensures { IfOk result (λ r. r ≡ spec.numbers items.now) }
{
    let mut got = Items::new(alloc);
    for item in items.as_slice() {
        match number(item) {
            Ok(n) => got.push(n)?,
            Err(kind) => return Ok(Err(kind)),
        }
    }
    Ok(Ok(got))
}

/// The strings of a list, or the kind of the first element that is none.
#[tactic(auto, using(crate::proofs::Gathered::after_nothing, crate::proofs::Gathered::after_one))]
pub fn strings(alloc: Global, items: Vec<Val>) -> Result<Result<Items<Text>, Kind>, NoMemory>
    ensures { IfOk result (λ r. r ≡ spec.strings items.items) }
{
    let mut got = Items::new(alloc);
    for item in items {
        match string(item) {
            Ok(s) => got.push(s)?,
            Err(kind) => return Ok(Err(kind)),
        }
    }
    Ok(Ok(got))
}
