//! Fields of objects, and what they are where they are absent or have a lint.
ghost use Rattle.std.specs.Prelude.{◌≡◌, ◌≤◌, IfSome};
ghost use Rattle.std.specs.Option.{option_copied};
ghost use Rattle.bt_value.specs.Depth.{depth, members_depth};
ghost use Rattle.bt_value.specs.Keys.{find};
ghost use Rattle.bt_compile.specs.Reading as spec;
ghost use Rattle.bt_compile.specs.Reading.{met, reading};

use bt_proc::Format;
use bt_value::{Members, Val};

/// The value of the key. It nests less deep than the object.
#[tactic(auto, using(crate::proofs::Finds::found_depth))]
pub fn field<'a>(fields: &'a Members, key: &str) -> Option<&'a Val>
    ensures value { option_copied result ≡ find key.now fields.now }
    ensures nests { IfSome result (λ v. depth v.now ≤ members_depth fields.now) }
{
    fields.find(key)
}

/// A text, or the empty text.
pub fn text_of(v: &Val) -> &str
    ensures { result.now ≡ (reading v.now).text }
{
    match v {
        Val::Str(text) => text.as_str(),
        _ => "",
    }
}

/// The text of the key, or the empty text.
#[tactic(auto, using(crate::proofs::Finds::find_met))]
pub fn text_at<'a>(fields: &'a Members, key: &str) -> &'a str
    ensures { result.now ≡ spec.text_of (find key.now (met fields.now)) }
{
    match fields.find(key) {
        Some(v) => text_of(v),
        None => "",
    }
}

fn is_set(v: &Val) -> bool
    ensures { result ≡ (reading v.now).is_set }
{
    match v {
        Val::Bool(b) => *b,
        _ => false,
    }
}

/// The boolean of the key, or false.
#[tactic(auto, using(crate::proofs::Finds::find_met))]
pub fn is_set_at(fields: &Members, key: &str) -> bool
    ensures { result ≡ spec.is_set_of (find key.now (met fields.now)) }
{
    match fields.find(key) {
        Some(v) => is_set(v),
        None => false,
    }
}

fn size_of(n: i64) -> u32
    ensures { result ≡ spec.size_of n }
{
    if 1 <= n && n <= 16_384 { n as u32 } else { 1 }
}

fn number(v: &Val) -> u32
    ensures { result ≡ (reading v.now).number }
{
    match v {
        Val::Int(n) => size_of(*n),
        _ => 1,
    }
}

#[tactic(auto, using(crate::proofs::Finds::find_met))]
fn number_at(fields: &Members, key: &str) -> u32
    ensures { result ≡ spec.number_of (find key.now (met fields.now)) }
{
    match fields.find(key) {
        Some(v) => number(v),
        None => 1,
    }
}

/// The `size` of a `split`.
pub fn size(v: &Val) -> u32
    ensures { result ≡ (reading v.now).size }
{
    match v {
        Val::Obj(fields) => number_at(fields, "size"),
        _ => 1,
    }
}

/// The `value` of a `group_by_value`.
pub fn value(v: &Val) -> &str
    ensures { result.now ≡ (reading v.now).value }
{
    match v {
        Val::Obj(fields) => text_at(fields, "value"),
        _ => "",
    }
}

fn format_of(text: &str) -> Format
    ensures { result ≡ spec.format_of text.now }
{
    if text == "json_array" {
        Format::JsonArray
    } else {
        Format::Lines
    }
}

/// The `format` of an `archive` or an `unarchive`.
pub fn format(v: &Val) -> Format
    ensures { result ≡ (reading v.now).format }
{
    match v {
        Val::Obj(fields) => format_of(text_at(fields, "format")),
        _ => Format::Lines,
    }
}
