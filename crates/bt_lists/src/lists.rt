//! The methods on lists, and those on values of any kind.
ghost use Rattle.std.specs.Prelude.{◌≡◌, ◌++◌, [], IfOk, OnOk, IfSome, ◌<◌};
ghost use Rattle.std.specs.List.{flat_map};
ghost use Rattle.bt_lists.specs.Lists as spec;

use bt_kinds::kinds::{Kind, failure, kind_name, kind_of, wrong};
use bt_kinds::limits::{count, limited};
use bt_kinds::moving::{into_vec, put};
use bt_kinds::targets::{array, number};
use bt_ports::NoMemory;
use bt_ports::text::Text;
use bt_value::{Fields, Members, Out, Val, Vals};
use sqlite_items::Items;
use std::alloc::Global;

/// How many bytes, elements or members a value has, or its kind.
#[tactic(auto, unfolding(crate::specs::Lists::size))]
fn size(v: &Val) -> Result<usize, Kind>
    ensures { result ≡ spec.size v.now }
{
    match v {
        Val::Str(s) => Ok(s.as_str().len()),
        Val::Bytes(b) => Ok(b.as_slice().len()),
        Val::Arr(items) => Ok(items.len()),
        Val::Obj(members) => Ok(members.len()),
        _ => Err(kind_of(v)),
    }
}

/// How many bytes, elements or members the target has.
pub fn length(alloc: Global, target: Val) -> Result<Out, NoMemory>
    ensures { IfOk result (λ o. o ≡ spec.length_of target) }
{
    match size(&target) {
        Ok(n) => Ok(Out::Value(count(n)?)),
        Err(kind) => wrong(alloc, "length", kind),
    }
}

/// The target, which is not empty.
pub fn not_empty(alloc: Global, target: Val) -> Result<Out, NoMemory>
    ensures { IfOk result (λ o. o ≡ spec.not_empty target) }
{
    match size(&target) {
        Ok(0) => failure(alloc, "not_empty", "empty"),
        Ok(_) => Ok(Out::Value(target)),
        Err(kind) => wrong(alloc, "not_empty", kind),
    }
}

/// The name of the target's kind.
pub fn type_of(alloc: Global, target: &Val) -> Result<Out, NoMemory>
    ensures { IfOk result (λ o. o ≡ spec.type target.now) }
{
    Ok(Out::Value(Val::Str(Text::make(alloc, kind_name(kind_of(target)))?)))
}

/// The target, which is not null.
#[tactic(auto, unfolding(crate::specs::Lists::not_null))]
pub fn not_null(alloc: Global, target: Val) -> Result<Out, NoMemory>
    ensures { IfOk result (λ o. o ≡ spec.not_null target) }
{
    match kind_of(&target) {
        Kind::Null => wrong(alloc, "not_null", Kind::Null),
        _ => Ok(Out::Value(target)),
    }
}

/// With values at the end.
pub fn append(alloc: Global, target: Val, args: Vals) -> Result<Out, NoMemory>
    ensures { IfOk result (λ o. o ≡ spec.append target args) }
{
    match array(target) {
        Ok(mut items) => {
            items.append(args)?;
            limited(alloc, "append", Val::Arr(items))
        }
        Err(kind) => wrong(alloc, "append", kind),
    }
}

/// The elements of lists put at the end of one, or the kind of the first that is no list.
#[tactic(auto, using(crate::proofs::Opening::opened_nothing, crate::proofs::Opening::opened_one))]
fn with_all(items: Vals, more: Vec<Val>) -> Result<Result<Vals, Kind>, NoMemory>
    ensures { IfOk result (λ r. r ≡ spec.after_all items (spec.arrays more.items)) }
{
    let mut got = items;
    for item in more {
        match array(item) {
            Ok(inner) => got.append(inner)?,
            Err(kind) => return Ok(Err(kind)),
        }
    }
    Ok(Ok(got))
}

/// With the elements of lists at the end.
pub fn concat(alloc: Global, target: Val, args: Vals) -> Result<Out, NoMemory>
    ensures { IfOk result (λ o. o ≡ spec.concat_all target args) }
{
    match array(target) {
        Ok(items) => match with_all(items, into_vec(alloc, args)?)? {
            Ok(all) => limited(alloc, "concat", Val::Arr(all)),
            Err(kind) => wrong(alloc, "concat", kind),
        },
        Err(kind) => wrong(alloc, "concat", kind),
    }
}

/// A list's elements, or any other value alone, put at the end.
#[tactic(auto, unfolding(crate::specs::Lists::opened))]
pub fn push_opened(got: &mut Vals, v: Val) -> Result<(), NoMemory>
    ensures { OnOk result (got.new ≡ got.old ++ spec.opened v) }
{
    match v {
        Val::Arr(inner) => got.append(inner)?,
        other => got.push(other)?,
    }
    Ok(())
}

fn flat(alloc: Global, items: Vec<Val>) -> Result<Vals, NoMemory>
    ensures { IfOk result (λ xs. xs ≡ flat_map spec.opened items.items) }
{
    let mut got = Items::new(alloc);
    for item in items {
        push_opened(&mut got, item)?;
    }
    Ok(got)
}

/// Lists among the elements opened out.
pub fn flatten(alloc: Global, target: Val) -> Result<Out, NoMemory>
    ensures { IfOk result (λ o. o ≡ spec.flatten target) }
{
    match array(target) {
        Ok(items) => Ok(Out::Value(Val::Arr(flat(alloc, into_vec(alloc, items)?)?))),
        Err(kind) => wrong(alloc, "flatten", kind),
    }
}

fn entry(alloc: Global, index: usize, v: Val) -> Result<Val, NoMemory>
    ensures { IfOk result (λ x. x ≡ spec.entry index v) }
{
    let mut members = Fields::new(alloc);
    put(alloc, &mut members, "index", count(index)?)?;
    put(alloc, &mut members, "value", v)?;
    Ok(Val::Obj(members))
}

fn numbered(alloc: Global, items: Vec<Val>) -> Result<Vals, NoMemory>
    ensures { IfOk result (λ xs. xs ≡ spec.numbered 0 items.items) }
{
    let mut got = Items::new(alloc);
    for item in items {
        let entry = entry(alloc, got.len(), item)?;
        got.push(entry)?;
    }
    Ok(got)
}

/// Each element with its place.
pub fn enumerated(alloc: Global, target: Val) -> Result<Out, NoMemory>
    ensures { IfOk result (λ o. o ≡ spec.enumerated target) }
{
    match array(target) {
        Ok(items) => {
            let entries = numbered(alloc, into_vec(alloc, items)?)?;
            limited(alloc, "enumerated", Val::Arr(entries))
        }
        Err(kind) => wrong(alloc, "enumerated", kind),
    }
}

/// A place from 0, or from the end where it is negative.
pub fn place_in(n: usize, i: i64) -> Option<usize>
    ensures place { result ≡ spec.place_in n i }
    ensures within { IfSome result (λ at. at < n) }
{
    let back = i.unsigned_abs() as usize;
    if i < 0 {
        n.checked_sub(back)
    } else if back < n {
        Some(back)
    } else {
        None
    }
}

/// The element at a place.
pub fn index(alloc: Global, target: Val, i: Val) -> Result<Out, NoMemory>
    ensures { IfOk result (λ o. o ≡ spec.index target i) }
{
    match array(target) {
        Ok(mut items) => match number(&i) {
            Ok(i) => match place_in(items.len(), i) {
                Some(at) => Ok(Out::Value(items.remove(at))),
                None => failure(alloc, "index", "out of range"),
            },
            Err(kind) => wrong(alloc, "index", kind),
        },
        Err(kind) => wrong(alloc, "index", kind),
    }
}
