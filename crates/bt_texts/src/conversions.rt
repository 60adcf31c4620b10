//! The conversions of values.
ghost use Rattle.std.specs.Prelude.{◌≡◌, [], false, IfOk, IfSome, IsUtf8, map};
ghost use Rattle.bt_value.specs.Plain.{has_bytes, some, some_member};
ghost use Rattle.bt_texts.specs.Conversions as spec;

use bt_kinds::kinds::{failure, kind_of, wrong};
use bt_kinds::moving::put;
use bt_kinds::operators::is_zero;
use bt_kinds::targets::text;
use bt_ports::NoMemory;
use bt_ports::blob::Blob;
use bt_ports::text::Text;
use bt_value::{Fields, JsonFault, Members, Out, Val, Vals, read_json, write_json};
use sqlite_items::Items;
use std::alloc::Global;

/// A string of bytes, where they are text.
#[tactic(auto, using(crate::proofs::Utf8::is_text, crate::proofs::Utf8::no_text))]
pub fn as_string(alloc: Global, b: &[u8]) -> Result<Option<Val>, NoMemory>
    ensures value { IfOk result (λ x. x ≡ spec.as_string b.now) }
    ensures plain { IfOk result (λ x. IfSome x (λ w. has_bytes w ≡ false)) }
{
    match std::str::from_utf8(b) {
        Ok(s) => Ok(Some(Val::Str(Text::make(alloc, s)?))),
        Err(_) => Ok(None),
    }
}

/// The value with its bytes as strings, where all of them are text.
#[cycle(texts_of)]
#[tactic(auto, using(bt_value::proofs::Depths::item_depth, bt_value::proofs::Depths::member_depth))]
pub fn texts_of(alloc: Global, v: &Val) -> Result<Option<Val>, NoMemory>
    ensures value { IfOk result (λ x. x ≡ spec.texts_of v.now) }
    ensures plain { IfOk result (λ x. IfSome x (λ w. has_bytes w ≡ false)) }
{
    match v {
        Val::Null => Ok(Some(Val::Null)),
        Val::Bool(b) => Ok(Some(Val::Bool(*b))),
        Val::Int(n) => Ok(Some(Val::Int(*n))),
        Val::Str(s) => Ok(Some(Val::Str(Text::make(alloc, s.as_str())?))),
        Val::Bytes(b) => as_string(alloc, b.as_slice()),
        Val::Arr(items) => match texts_of_items(alloc, items)? {
            Some(items) => Ok(Some(Val::Arr(items))),
            None => Ok(None),
        },
        Val::Obj(members) => match texts_of_members(alloc, members)? {
            Some(members) => Ok(Some(Val::Obj(members))),
            None => Ok(None),
        },
    }
}

#[cycle(texts_of)]
#[tactic(auto, using(bt_value::proofs::Depths::item_depth, crate::proofs::Gathered::some_nothing, crate::proofs::Gathered::some_one))]
fn texts_of_items(alloc: Global, items: &Vals) -> Result<Option<Vals>, NoMemory>
    ensures value { IfOk result (λ x. x ≡ spec.all (map spec.texts_of items.now)) }
    ensures plain { IfOk result (λ x. IfSome x (λ ws. some (map has_bytes ws) ≡ false)) }
{
    let mut got = Items::new(alloc);
    for item in items.as_slice() {
        match texts_of(alloc, item)? {
            Some(v) => got.push(v)?,
            None => return Ok(None),
        }
    }
    Ok(Some(got))
}

#[cycle(texts_of)]
#[tactic(auto, using(bt_value::proofs::Depths::item_depth, bt_value::proofs::Depths::member_depth))]
fn texts_of_members(alloc: Global, members: &Members) -> Result<Option<Members>, NoMemory>
    ensures value { IfOk result (λ x. x ≡ spec.all_members [] (map (λ m. (m.0, spec.texts_of m.1)) members.now)) }
    ensures plain { IfOk result (λ x. IfSome x (λ ms. some_member (map (λ m. (m.0, has_bytes m.1)) ms) ≡ false)) }
{
    let mut got = Fields::new(alloc);
    for member in members.as_slice() {
        match texts_of(alloc, &member.1)? {
            Some(v) => put(alloc, &mut got, member.0.as_str(), v)?,
            None => return Ok(None),
        }
    }
    Ok(Some(got))
}

/// The compact JSON text of a value, where bytes stand as text.
pub fn written(alloc: Global, v: &Val) -> Result<Option<Blob>, NoMemory>
    ensures text { IfOk result (λ b. b ≡ spec.written v.now) }
    ensures utf8 { IfOk result (λ r. IfSome r (λ b. IsUtf8 b)) }
{
    match texts_of(alloc, v)? {
        Some(plain) => Ok(Some(write_json(alloc, &plain)?)),
        None => Ok(None),
    }
}

/// The text of bytes that are one.
pub fn text_of(b: Blob) -> Text
    requires { IsUtf8 b }
    ensures { result ≡ b }
{
    match String::from_utf8(b.into_vec()) {
        Ok(s) => Text::from_string(s),
        Err(_) => unreachable!(),
    }
}

/// The text of bytes, where they are text.
#[tactic(auto, using(crate::proofs::Utf8::text_is, crate::proofs::Utf8::no_text))]
pub fn text_from(b: Blob) -> Option<Text>
    ensures { result ≡ spec.as_text b }
{
    match String::from_utf8(b.into_vec()) {
        Ok(s) => Some(Text::from_string(s)),
        Err(_) => None,
    }
}

/// The string of a value, where its bytes are text.
#[tactic(auto, unfolding(crate::specs::Conversions::stringed))]
pub fn stringed(alloc: Global, v: Val) -> Result<Option<Text>, NoMemory>
    ensures { IfOk result (λ s. s ≡ spec.stringed v) }
{
    match v {
        Val::Str(s) => Ok(Some(s)),
        Val::Bytes(b) => Ok(text_from(b)),
        other => match written(alloc, &other)? {
            Some(b) => Ok(Some(text_of(b))),
            None => Ok(None),
        },
    }
}

/// The target as a string.
pub fn string_of(alloc: Global, target: Val) -> Result<Out, NoMemory>
    ensures { IfOk result (λ o. o ≡ spec.string_of target) }
{
    match stringed(alloc, target)? {
        Some(s) => Ok(Out::Value(Val::Str(s))),
        None => failure(alloc, "string", "bad text"),
    }
}

/// The bytes of a value.
#[tactic(auto, unfolding(crate::specs::Conversions::byted))]
fn byted(alloc: Global, v: Val) -> Result<Option<Blob>, NoMemory>
    ensures { IfOk result (λ b. b ≡ spec.byted v) }
{
    match v {
        Val::Bytes(b) => Ok(Some(b)),
        other => match stringed(alloc, other)? {
            Some(s) => Ok(Some(Blob::from_vec(s.into_string().into_bytes()))),
            None => Ok(None),
        },
    }
}

/// The target as bytes.
pub fn bytes_of(alloc: Global, target: Val) -> Result<Out, NoMemory>
    ensures { IfOk result (λ o. o ≡ spec.bytes_result target) }
{
    match byted(alloc, target)? {
        Some(b) => Ok(Out::Value(Val::Bytes(b))),
        None => failure(alloc, "bytes", "bad text"),
    }
}

/// The number of a text of an optional `-` and digits.
#[tactic(auto, using(crate::proofs::Numerals::read_plain, crate::proofs::Numerals::read_plus))]
fn number_text(s: &str) -> Option<i64>
    ensures { result ≡ spec.number_text s.now }
{
    if s.as_bytes().first() == Some(&b'+') {
        return None;
    }
    s.parse::<i64>().ok()
}

/// The target as a number.
#[tactic(auto, unfolding(crate::specs::Conversions::number_of))]
pub fn number_of(alloc: Global, target: Val) -> Result<Out, NoMemory>
    ensures { IfOk result (λ o. o ≡ spec.number_of target) }
{
    match target {
        Val::Int(n) => Ok(Out::Value(Val::Int(n))),
        Val::Str(s) => match number_text(s.as_str()) {
            Some(n) => Ok(Out::Value(Val::Int(n))),
            None => failure(alloc, "number", "bad text"),
        },
        other => wrong(alloc, "number", kind_of(&other)),
    }
}

fn says_yes(s: &str) -> bool
    ensures { result ≡ spec.says_yes s.now }
{
    s == "1" || (s == "t" || (s == "T" || (s == "TRUE" || (s == "true" || s == "True"))))
}

fn says_no(s: &str) -> bool
    ensures { result ≡ spec.says_no s.now }
{
    s == "0" || (s == "f" || (s == "F" || (s == "FALSE" || (s == "false" || s == "False"))))
}

fn truth_of(s: &str) -> Option<bool>
    ensures { result ≡ spec.truth_of s.now }
{
    if says_yes(s) {
        Some(true)
    } else if says_no(s) {
        Some(false)
    } else {
        None
    }
}

/// The target as a boolean.
#[tactic(auto, unfolding(crate::specs::Conversions::bool_of))]
pub fn bool_of(alloc: Global, target: Val) -> Result<Out, NoMemory>
    ensures { IfOk result (λ o. o ≡ spec.bool_of target) }
{
    match target {
        Val::Bool(b) => Ok(Out::Value(Val::Bool(b))),
        Val::Int(n) => Ok(Out::Value(Val::Bool(!is_zero(n)))),
        Val::Str(s) => match truth_of(s.as_str()) {
            Some(b) => Ok(Out::Value(Val::Bool(b))),
            None => failure(alloc, "bool", "bad text"),
        },
        other => wrong(alloc, "bool", kind_of(&other)),
    }
}

#[tactic(auto, using(crate::proofs::Utf8::json_is, crate::proofs::Utf8::json_none, crate::proofs::Utf8::json_unread))]
fn json_value(alloc: Global, b: &[u8]) -> Result<Option<Val>, NoMemory>
    ensures { IfOk result (λ x. x ≡ spec.json_value b.now) }
{
    match read_json(alloc, b) {
        Ok(v) => Ok(Some(v)),
        Err(JsonFault::NoMemory) => Err(NoMemory),
        Err(JsonFault::NotJson) => Ok(None),
        Err(JsonFault::OutOfProfile) => Ok(None),
    }
}

/// The value of a JSON text.
pub fn parse_json(alloc: Global, target: Val) -> Result<Out, NoMemory>
    ensures { IfOk result (λ o. o ≡ spec.parse_json target) }
{
    match text(target) {
        Ok(t) => match json_value(alloc, t.as_slice())? {
            Some(v) => Ok(Out::Value(v)),
            None => failure(alloc, "parse_json", "bad text"),
        },
        Err(kind) => wrong(alloc, "parse_json", kind),
    }
}
