//! Fields of objects, and what they are where they are absent or have a lint.
ghost use Rattle.std.specs.Prelude.{◌≡◌, ◌≤◌, IfSome, codes};
ghost use Rattle.std.specs.Option.{option_copied};
ghost use Rattle.bt_value.specs.Depth.{depth, members_depth};
ghost use Rattle.bt_value.specs.Keys.{find};
ghost use Rattle.bt_output_plan.specs.Fields as values;
ghost use Rattle.bt_output_plan.specs.Reading as spec;
ghost use Rattle.bt_output_plan.specs.Reading.{met, reading};

use bt_schema::{closing_bytes, period};
use bt_value::{Members, Val};

/// The value of the key. It nests less deep than the object.
#[tactic(auto, using(crate::proofs::Finds::found_depth))]
pub fn field<'a>(fields: &'a Members, key: &str) -> Option<&'a Val>
    ensures value { option_copied result ≡ find key.now fields.now }
    ensures nests { IfSome result (λ v. depth v.now ≤ members_depth fields.now) }
{
    fields.find(key)
}

/// A text, or the empty text.
pub fn text_of(v: &Val) -> &str
    ensures { result.now ≡ (reading v.now).text }
{
    match v {
        Val::Str(text) => text.as_str(),
        _ => "",
    }
}

/// The text of the key, or the empty text.
#[tactic(auto, using(crate::proofs::Finds::find_met))]
pub fn text_at<'a>(fields: &'a Members, key: &str) -> &'a str
    ensures { result.now ≡ spec.text_of (find key.now (met fields.now)) }
{
    match fields.find(key) {
        Some(v) => text_of(v),
        None => "",
    }
}

fn is_set(v: &Val) -> bool
    ensures { result ≡ (reading v.now).is_set }
{
    match v {
        Val::Bool(b) => *b,
        _ => false,
    }
}

/// The boolean of the key, or false.
#[tactic(auto, using(crate::proofs::Finds::find_met))]
pub fn is_set_at(fields: &Members, key: &str) -> bool
    ensures { result ≡ spec.is_set_of (find key.now (met fields.now)) }
{
    match fields.find(key) {
        Some(v) => is_set(v),
        None => false,
    }
}

fn number(v: &Val) -> i64
    ensures { result ≡ (reading v.now).number }
{
    match v {
        Val::Int(n) => *n,
        _ => 0,
    }
}

#[tactic(auto, using(crate::proofs::Finds::find_met))]
fn number_at(fields: &Members, key: &str) -> i64
    ensures { result ≡ spec.number_of (find key.now (met fields.now)) }
{
    match fields.find(key) {
        Some(v) => number(v),
        None => 0,
    }
}

fn count_within(n: i64) -> u32
    ensures { result ≡ values.within 16384 n }
{
    if 0 <= n && n <= 16_384 { n as u32 } else { 0 }
}

fn size_within(n: i64) -> u64
    ensures { result ≡ values.within 1073741824 n }
{
    if 0 <= n && n <= 1_073_741_824 {
        n as u64
    } else {
        0
    }
}

/// The `count` of a batching.
pub fn count_at(fields: &Members) -> u32
    ensures { result ≡ values.within 16384 (spec.number_of (find (codes "count") (met fields.now))) }
{
    count_within(number_at(fields, "count"))
}

/// The `byte_size` of a batching.
pub fn size_at(fields: &Members) -> u64
    ensures { result ≡ values.within 1073741824 (spec.number_of (find (codes "byte_size") (met fields.now))) }
{
    size_within(number_at(fields, "byte_size"))
}

fn tries_of(n: i64) -> u32
    ensures { result ≡ values.tries n }
{
    if 1 <= n && n <= 8 { n as u32 + 1 } else { 1 }
}

/// How often a `retry` tries.
pub fn tries_at(fields: &Members) -> u32
    ensures { result ≡ values.tries (spec.number_of (find (codes "max_retries") (met fields.now))) }
{
    tries_of(number_at(fields, "max_retries"))
}

fn milliseconds(text: &str) -> u64
    ensures { result ≡ values.milliseconds text.now }
{
    match period(text) {
        Some(n) => { if n <= 86_400_000 { n } else { 0 } }
        None => 0,
    }
}

/// The `period` of a batching, in milliseconds.
pub fn period_at(fields: &Members) -> u64
    ensures { result ≡ values.milliseconds (spec.text_of (find (codes "period") (met fields.now))) }
{
    milliseconds(text_at(fields, "period"))
}

fn closing_of(codec: &str) -> &str
    ensures { result.now ≡ values.closing codec.now }
{
    match closing_bytes(true, codec) {
        Some(bytes) => bytes,
        None => "\n",
    }
}

#[tactic(auto, using(crate::proofs::Finds::find_met))]
fn closing_at(fields: &Members) -> &str
    ensures { result.now ≡ spec.closing_of (find (codes "codec") (met fields.now)) }
{
    match fields.find("codec") {
        Some(v) => closing_of(text_of(v)),
        None => "\n",
    }
}

/// The closing bytes of the fields of `stdout` or `file`.
pub fn closing(v: &Val) -> &str
    ensures { result.now ≡ (reading v.now).closing }
{
    match v {
        Val::Obj(fields) => closing_at(fields),
        _ => "\n",
    }
}

/// The path of the fields of `file`.
pub fn path(v: &Val) -> &str
    ensures { result.now ≡ (reading v.now).path }
{
    match v {
        Val::Obj(fields) => text_at(fields, "path"),
        _ => "",
    }
}
