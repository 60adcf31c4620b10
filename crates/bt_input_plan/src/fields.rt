//! Fields of objects, and what they are where they are absent or have a lint.
ghost use Rattle.std.specs.Prelude.{◌≡◌, ◌≤◌, IfOk, IfSome, codes, map};
ghost use Rattle.std.specs.Option.{option_copied};
ghost use Rattle.bt_value.specs.Depth.{depth, members_depth};
ghost use Rattle.bt_value.specs.Keys.{find};
ghost use Rattle.bt_input_plan.specs.Reading as spec;
ghost use Rattle.bt_input_plan.specs.Reading.{met, reading};

use crate::plan::Names;
use bt_ports::NoMemory;
use bt_ports::text::Text;
use bt_value::{Members, Val, Vals};
use std::alloc::Global;

/// The value of the key. It nests less deep than the object.
#[tactic(auto, using(crate::proofs::Finds::found_depth))]
pub fn field<'a>(fields: &'a Members, key: &str) -> Option<&'a Val>
    ensures value { option_copied result ≡ find key.now fields.now }
    ensures nests { IfSome result (λ v. depth v.now ≤ members_depth fields.now) }
{
    fields.find(key)
}

/// A text, or the empty text.
pub fn text_of(v: &Val) -> &str
    ensures { result.now ≡ (reading v.now).text }
{
    match v {
        Val::Str(text) => text.as_str(),
        _ => "",
    }
}

/// The text of the key, or the empty text.
#[tactic(auto, using(crate::proofs::Finds::find_met))]
pub fn text_at<'a>(fields: &'a Members, key: &str) -> &'a str
    ensures { result.now ≡ spec.text_of (find key.now (met fields.now)) }
{
    match fields.find(key) {
        Some(v) => text_of(v),
        None => "",
    }
}

fn is_false(v: &Val) -> bool
    ensures { result ≡ (reading v.now).is_false }
{
    match v {
        Val::Bool(b) => !*b,
        _ => false,
    }
}

/// Whether the key has the value false.
#[tactic(auto, using(crate::proofs::Finds::find_met))]
pub fn is_false_at(fields: &Members, key: &str) -> bool
    ensures { result ≡ spec.is_false_of (find key.now (met fields.now)) }
{
    match fields.find(key) {
        Some(v) => is_false(v),
        None => false,
    }
}

fn number(v: &Val) -> i64
    ensures { result ≡ (reading v.now).number }
{
    match v {
        Val::Int(n) => *n,
        _ => 0,
    }
}

#[tactic(auto, using(crate::proofs::Finds::find_met))]
fn number_at(fields: &Members, key: &str) -> i64
    ensures { result ≡ spec.number_of (find key.now (met fields.now)) }
{
    match fields.find(key) {
        Some(v) => number(v),
        None => 0,
    }
}

fn count_within(n: i64) -> u32
    ensures { result ≡ spec.within 16384 n }
{
    if 0 <= n && n <= 16_384 { n as u32 } else { 0 }
}

fn size_within(n: i64) -> u64
    ensures { result ≡ spec.within 1073741824 n }
{
    if 0 <= n && n <= 1_073_741_824 {
        n as u64
    } else {
        0
    }
}

/// The `count` of a policy.
pub fn count_at(fields: &Members) -> u32
    ensures { result ≡ spec.within 16384 (spec.number_of (find (codes "count") (met fields.now))) }
{
    count_within(number_at(fields, "count"))
}

/// The `byte_size` of a policy.
pub fn size_at(fields: &Members) -> u64
    ensures { result ≡ spec.within 1073741824 (spec.number_of (find (codes "byte_size") (met fields.now))) }
{
    size_within(number_at(fields, "byte_size"))
}

fn each_name(alloc: Global, items: &Vals) -> Result<Names, NoMemory>
    ensures { IfOk result (λ ns. ns.list ≡ map (λ r. r.text) (map reading items.now)) }
{
    let mut names = Names::new(alloc);
    for item in items.as_slice() {
        names.push(Text::make(alloc, text_of(item))?)?;
    }
    Ok(names)
}

fn names(alloc: Global, v: &Val) -> Result<Names, NoMemory>
    ensures { IfOk result (λ ns. ns.list ≡ (reading v.now).names) }
{
    match v {
        Val::Arr(items) => each_name(alloc, items),
        _ => Ok(Names::new(alloc)),
    }
}

#[tactic(auto, using(crate::proofs::Finds::find_met))]
fn paths_at(alloc: Global, fields: &Members) -> Result<Names, NoMemory>
    ensures { IfOk result (λ ns. ns.list ≡ spec.names_of (find (codes "paths") (met fields.now))) }
{
    match fields.find("paths") {
        Some(v) => names(alloc, v),
        None => Ok(Names::new(alloc)),
    }
}

/// The paths of the fields of `file`.
pub fn paths(alloc: Global, v: &Val) -> Result<Names, NoMemory>
    ensures { IfOk result (λ ns. ns.list ≡ (reading v.now).paths) }
{
    match v {
        Val::Obj(fields) => paths_at(alloc, fields),
        _ => Ok(Names::new(alloc)),
    }
}
