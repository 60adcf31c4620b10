//! The methods on objects, and those on paths.
ghost use Rattle.std.specs.Prelude.{◌≡◌, ◌++◌, Some, IfOk, map};
ghost use Rattle.bt_value.specs.declared.val.Val.{Arr};
ghost use Rattle.std.specs.List.{fold};
ghost use Rattle.bt_lists.specs.Lists as lists;
ghost use Rattle.bt_objects.specs.Objects as spec;
ghost use Rattle.bt_kinds.specs.Targets as targets;

use bt_kinds::kinds::{Kind, wrong};
use bt_kinds::limited;
use bt_kinds::moving::{into_vec, put};
use bt_kinds::targets::{object, string, strings};
use bt_lists::lists::push_opened;
use bt_ports::NoMemory;
use bt_ports::text::Text;
use bt_value::{Fields, Members, Out, Val, Vals, copy, path_delete, path_get};
use sqlite_items::Items;
use std::alloc::Global;

fn keys_of(alloc: Global, members: Vec<(Text, Val)>) -> Result<Vals, NoMemory>
    ensures { IfOk result (λ xs. xs ≡ map spec.key_of members.items) }
{
    let mut got = Items::new(alloc);
    for member in members {
        let (key, _value) = member;
        got.push(Val::Str(key))?;
    }
    Ok(got)
}

/// The keys of an object, in order.
pub fn keys(alloc: Global, target: Val) -> Result<Out, NoMemory>
    ensures { IfOk result (λ o. o ≡ spec.keys target) }
{
    match object(target) {
        Ok(members) => Ok(Out::Value(Val::Arr(keys_of(alloc, members.into_vec())?))),
        Err(kind) => wrong(alloc, "keys", kind),
    }
}

fn values_of(alloc: Global, members: Vec<(Text, Val)>) -> Result<Vals, NoMemory>
    ensures { IfOk result (λ xs. xs ≡ map spec.value_of members.items) }
{
    let mut got = Items::new(alloc);
    for member in members {
        let (_key, value) = member;
        got.push(value)?;
    }
    Ok(got)
}

/// The values of an object, in order of the keys.
pub fn values(alloc: Global, target: Val) -> Result<Out, NoMemory>
    ensures { IfOk result (λ o. o ≡ spec.values target) }
{
    match object(target) {
        Ok(members) => Ok(Out::Value(Val::Arr(values_of(alloc, members.into_vec())?))),
        Err(kind) => wrong(alloc, "values", kind),
    }
}

fn member_of(alloc: Global, key: Text, value: Val) -> Result<Val, NoMemory>
    ensures { IfOk result (λ x. x ≡ spec.member_of (key, value)) }
{
    let mut members = Fields::new(alloc);
    put(alloc, &mut members, "key", Val::Str(key))?;
    put(alloc, &mut members, "value", value)?;
    Ok(Val::Obj(members))
}

fn members_of(alloc: Global, members: Vec<(Text, Val)>) -> Result<Vals, NoMemory>
    ensures { IfOk result (λ xs. xs ≡ map spec.member_of members.items) }
{
    let mut got = Items::new(alloc);
    for member in members {
        let (key, value) = member;
        let one = member_of(alloc, key, value)?;
        got.push(one)?;
    }
    Ok(got)
}

/// The members of an object, each as an object.
pub fn key_values(alloc: Global, target: Val) -> Result<Out, NoMemory>
    ensures { IfOk result (λ o. o ≡ spec.key_values target) }
{
    match object(target) {
        Ok(members) => {
            let all = members_of(alloc, members.into_vec())?;
            limited(alloc, "key_values", Val::Arr(all))
        }
        Err(kind) => wrong(alloc, "key_values", kind),
    }
}

/// Two objects, or the kind of the first value that is none.
fn two_objects(left: Val, right: Val) -> Result<(Members, Members), Kind>
    ensures { result ≡ targets.two (targets.object left) (targets.object right) }
{
    match object(left) {
        Ok(ms) => match object(right) {
            Ok(ns) => Ok((ms, ns)),
            Err(kind) => Err(kind),
        },
        Err(kind) => Err(kind),
    }
}

/// One list of two values, each opened out.
fn listed(alloc: Global, x: Val, y: Val) -> Result<Val, NoMemory>
    ensures { IfOk result (λ z. z ≡ Arr (lists.opened x ++ lists.opened y)) }
{
    let mut items = Items::new(alloc);
    push_opened(&mut items, x)?;
    push_opened(&mut items, y)?;
    Ok(Val::Arr(items))
}

/// Two values of one name.
#[cycle(merged)]
#[tactic(auto, unfolding(bt_kinds::specs::Targets::object))]
fn merged_values(alloc: Global, room: usize, x: Val, y: Val) -> Result<Val, NoMemory>
    ensures { IfOk result (λ z. z ≡ spec.merged_value (spec.merged room) (Some x) y) }
{
    match x {
        Val::Obj(ms) => match y {
            Val::Obj(ns) => Ok(Val::Obj(merged(alloc, room, ms, ns)?)),
            other => listed(alloc, Val::Obj(ms), other),
        },
        other => listed(alloc, other, y),
    }
}

/// Two objects merged, down to so many levels.
#[cycle(merged)]
#[tactic(auto, using(crate::proofs::Joining::replaced_put, crate::proofs::Joining::merged_step, crate::proofs::Joining::merged_none))]
fn merged(alloc: Global, room: usize, ms: Members, ns: Members) -> Result<Members, NoMemory>
    ensures { IfOk result (λ r. r ≡ spec.merged room ms ns) }
{
    if room == 0 {
        return Ok(ms);
    }
    let mut got = ms;
    for member in ns.into_vec() {
        let (key, y) = member;
        let new = match got.replace(key.as_str(), Val::Null) {
            Some(x) => merged_values(alloc, room - 1, x, y)?,
            None => y,
        };
        got.put(key, new)?;
    }
    Ok(got)
}

/// Two objects as one, with both values of a shared key.
pub fn merge(alloc: Global, target: Val, arg: Val) -> Result<Out, NoMemory>
    ensures { IfOk result (λ o. o ≡ spec.merge target arg) }
{
    match two_objects(target, arg) {
        Ok((ms, ns)) => {
            let all = merged(alloc, 128, ms, ns)?;
            limited(alloc, "merge", Val::Obj(all))
        }
        Err(kind) => wrong(alloc, "merge", kind),
    }
}

/// The second of two values of one name, with the members of both where they are objects.
#[cycle(assigned)]
#[tactic(auto, unfolding(bt_kinds::specs::Targets::object))]
fn assigned_values(alloc: Global, room: usize, x: Val, y: Val) -> Result<Val, NoMemory>
    ensures { IfOk result (λ z. z ≡ spec.assigned_value (spec.assigned room) (Some x) y) }
{
    match x {
        Val::Obj(ms) => match y {
            Val::Obj(ns) => Ok(Val::Obj(assigned(alloc, room, ms, ns)?)),
            other => Ok(other),
        },
        _ => Ok(y),
    }
}

/// Two objects, the second assigned to the first, down to so many levels.
#[cycle(assigned)]
#[tactic(auto, using(crate::proofs::Joining::replaced_put, crate::proofs::Joining::assigned_step, crate::proofs::Joining::assigned_none))]
fn assigned(alloc: Global, room: usize, ms: Members, ns: Members) -> Result<Members, NoMemory>
    ensures { IfOk result (λ r. r ≡ spec.assigned room ms ns) }
{
    if room == 0 {
        return Ok(ms);
    }
    let mut got = ms;
    for member in ns.into_vec() {
        let (key, y) = member;
        let new = match got.replace(key.as_str(), Val::Null) {
            Some(x) => assigned_values(alloc, room - 1, x, y)?,
            None => y,
        };
        got.put(key, new)?;
    }
    Ok(got)
}

/// Two objects as one, with the argument's value of a shared key.
pub fn assign(alloc: Global, target: Val, arg: Val) -> Result<Out, NoMemory>
    ensures { IfOk result (λ o. o ≡ spec.assign target arg) }
{
    match two_objects(target, arg) {
        Ok((ms, ns)) => Ok(Out::Value(Val::Obj(assigned(alloc, 128, ms, ns)?))),
        Err(kind) => wrong(alloc, "assign", kind),
    }
}

fn parts<'a>(alloc: Global, path: &'a str) -> Result<Vec<&'a str>, NoMemory>
    ensures { IfOk result (λ v. map (λ x. x.now) v.items ≡ spec.names path.now) }
{
    match path.split('.').collect(alloc) {
        Ok(parts) => Ok(parts),
        Err(_) => Err(NoMemory),
    }
}

/// The names of a path between its dots.
pub fn names(alloc: Global, path: &str) -> Result<Items<Text>, NoMemory>
    ensures { IfOk result (λ ns. ns ≡ spec.names path.now) }
{
    let parts = parts(alloc, path)?;
    let mut names = Items::new(alloc);
    for part in parts.as_slice() {
        names.push(Text::make(alloc, part)?)?;
    }
    Ok(names)
}

/// Whether something stands at a path.
pub fn exists(alloc: Global, target: &Val, p: Val) -> Result<Out, NoMemory>
    ensures { IfOk result (λ o. o ≡ spec.exists target.now p) }
{
    match string(p) {
        Ok(s) => {
            let path = names(alloc, s.as_str())?;
            let found = path_get(target, path.as_slice()).is_some();
            Ok(Out::Value(Val::Bool(found)))
        }
        Err(kind) => wrong(alloc, "exists", kind),
    }
}

/// What stands at a path, or null.
pub fn get(alloc: Global, target: &Val, p: Val) -> Result<Out, NoMemory>
    ensures { IfOk result (λ o. o ≡ spec.get target.now p) }
{
    match string(p) {
        Ok(s) => {
            let path = names(alloc, s.as_str())?;
            match path_get(target, path.as_slice()) {
                Some(found) => Ok(Out::Value(copy(alloc, found)?)),
                None => Ok(Out::Value(Val::Null)),
            }
        }
        Err(kind) => wrong(alloc, "get", kind),
    }
}

fn without_paths(alloc: Global, v: Val, paths: &Items<Text>) -> Result<Val, NoMemory>
    ensures { IfOk result (λ w. w ≡ fold spec.without_path v paths.now) }
{
    let mut left = v;
    for path in paths.as_slice() {
        let path = names(alloc, path.as_str())?;
        path_delete(&mut left, path.as_slice());
    }
    Ok(left)
}

/// Without what stands at some paths.
pub fn without(alloc: Global, target: Val, args: Vals) -> Result<Out, NoMemory>
    ensures { IfOk result (λ o. o ≡ spec.without target args) }
{
    match object(target) {
        Ok(members) => match strings(alloc, into_vec(alloc, args)?)? {
            Ok(paths) => Ok(Out::Value(without_paths(alloc, Val::Obj(members), &paths)?)),
            Err(kind) => wrong(alloc, "without", kind),
        },
        Err(kind) => wrong(alloc, "without", kind),
    }
}
