//! A case's parts, and the call that it asks for.

use bt_kinds::moving::into_vec;
use bt_methods::{called, negate, operate};
use bt_ports::NoMemory;
use bt_ports::blob::Blob;
use bt_ports::text::Text;
use bt_value::{Members, MethodId, Op, Out, PrefixOp, Val, Vals, method_of};
use sqlite_items::Items;
use std::alloc::Global;

fn failed(alloc: Global, text: &str) -> Result<Out, NoMemory> {
    Ok(Out::Failed(Text::make(alloc, text)?))
}

fn text_field(case: &mut Members, name: &str) -> Option<Text> {
    match case.remove(name) {
        Some(Val::Str(text)) => Some(text),
        _ => None,
    }
}

fn count_field(case: &mut Members, name: &str) -> Option<u32> {
    match case.remove(name) {
        Some(Val::Int(n)) => u32::try_from(n).ok(),
        _ => None,
    }
}

fn list_field(alloc: Global, case: &mut Members, name: &str) -> Vals {
    match case.remove(name) {
        Some(Val::Arr(items)) => items,
        _ => Items::new(alloc),
    }
}

fn rising(alloc: Global, count: u32) -> Result<Val, NoMemory> {
    let mut items = Items::new(alloc);
    for n in 0..count {
        items.push(Val::Int(i64::from(n)))?;
    }
    Ok(Val::Arr(items))
}

fn falling(alloc: Global, count: u32) -> Result<Val, NoMemory> {
    let mut items = Items::new(alloc);
    for n in 0..count {
        items.push(Val::Int(i64::from(count - 1 - n)))?;
    }
    Ok(Val::Arr(items))
}

fn repeated(alloc: Global, text: Text, times: u32) -> Result<Val, NoMemory> {
    let mut all = Text::new(alloc);
    for _ in 0..times {
        all.push_str(text.as_str())?;
    }
    Ok(Val::Str(all))
}

// The value that an object stands for.
fn meant(alloc: Global, members: Members) -> Result<Val, NoMemory> {
    let mut members = members;
    if let Some(text) = text_field(&mut members, "bytes") {
        return Ok(Val::Bytes(Blob::from_vec(text.into_string().into_bytes())));
    }
    if let Some(count) = count_field(&mut members, "rising") {
        return rising(alloc, count);
    }
    if let Some(count) = count_field(&mut members, "falling") {
        return falling(alloc, count);
    }
    if let Some(text) = text_field(&mut members, "repeated") {
        let times = count_field(&mut members, "times").unwrap_or(0);
        return repeated(alloc, text, times);
    }
    Ok(Val::Obj(members))
}

fn value(alloc: Global, v: Val) -> Result<Val, NoMemory> {
    match v {
        Val::Obj(members) => meant(alloc, members),
        other => Ok(other),
    }
}

fn values(alloc: Global, items: Vals) -> Result<Vals, NoMemory> {
    let mut all = Items::new(alloc);
    for item in into_vec(alloc, items)? {
        all.push(value(alloc, item)?)?;
    }
    Ok(all)
}

// What a part of a case stands for.
fn part(alloc: Global, v: Val) -> Result<Out, NoMemory> {
    let Val::Obj(members) = v else {
        return Ok(Out::Value(v));
    };
    let mut members = members;
    if members.find("deleted").is_some() {
        return Ok(Out::Deleted);
    }
    if members.find("nothing").is_some() {
        return Ok(Out::Nothing);
    }
    if let Some(text) = text_field(&mut members, "failed") {
        return Ok(Out::Failed(text));
    }
    if members.find("list").is_some() {
        let items = list_field(alloc, &mut members, "list");
        return Ok(Out::Value(Val::Arr(values(alloc, items)?)));
    }
    Ok(Out::Value(meant(alloc, members)?))
}

fn parts(alloc: Global, items: Vals) -> Result<Vec<Out>, NoMemory> {
    let mut all = Vec::new(alloc);
    for item in into_vec(alloc, items)? {
        all.push(part(alloc, item)?)?;
    }
    Ok(all)
}

fn field(alloc: Global, case: &mut Members, name: &str) -> Result<Out, NoMemory> {
    part(alloc, case.remove(name).unwrap_or(Val::Null))
}

fn operator(mark: &str) -> Option<Op> {
    let op = match mark {
        "+" => Op::Add,
        "-" => Op::Sub,
        "*" => Op::Mul,
        "/" => Op::Div,
        "%" => Op::Rem,
        "==" => Op::Equal,
        "!=" => Op::NotEqual,
        "<" => Op::Less,
        "<=" => Op::AtMost,
        ">" => Op::More,
        ">=" => Op::AtLeast,
        "&&" => Op::And,
        "||" => Op::Or,
        _ => return None,
    };
    Some(op)
}

fn prefix(mark: &str) -> Option<PrefixOp> {
    match mark {
        "!" => Some(PrefixOp::Not),
        "-" => Some(PrefixOp::Minus),
        _ => None,
    }
}

fn before(alloc: Global, mark: &str, right: Out) -> Result<Out, NoMemory> {
    match (prefix(mark), right) {
        (Some(op), Out::Value(v)) => negate(alloc, op, v),
        _ => failed(alloc, "no such operator"),
    }
}

fn between(alloc: Global, mark: &str, left: Out, right: Out) -> Result<Out, NoMemory> {
    match (operator(mark), left, right) {
        (Some(op), Out::Value(v), Out::Value(w)) => operate(alloc, op, v, w),
        _ => failed(alloc, "no such operator"),
    }
}

fn method(
    alloc: Global,
    id: Option<MethodId>,
    target: Out,
    args: Vec<Out>,
) -> Result<Out, NoMemory> {
    match id {
        Some(id) => called(alloc, id, target, args, None),
        None => failed(alloc, "no such method"),
    }
}

/// What the call of a case gives.
pub fn outcome(alloc: Global, case: Members) -> Result<Out, NoMemory> {
    let mut case = case;
    if let Some(mark) = text_field(&mut case, "op") {
        let right = field(alloc, &mut case, "right")?;
        if case.find("left").is_none() {
            return before(alloc, mark.as_str(), right);
        }
        let left = field(alloc, &mut case, "left")?;
        return between(alloc, mark.as_str(), left, right);
    }
    let Some(name) = text_field(&mut case, "call") else {
        return failed(alloc, "no call");
    };
    let target = field(alloc, &mut case, "on")?;
    let arguments = list_field(alloc, &mut case, "with");
    let args = parts(alloc, arguments)?;
    let out = method(alloc, method_of(name.as_str()), target, args)?;
    match text_field(&mut case, "then") {
        Some(next) => method(alloc, method_of(next.as_str()), out, Vec::new(alloc)),
        None => Ok(out),
    }
}
