//! What queries give, and what is asked of it.
ghost use Rattle.std.specs.Prelude.{◌≡◌, IfOk, OnOk, OnErr, ◌++◌, ◌∷◌, []};
ghost use Rattle.std.specs.Option.{option_copied};
ghost use Rattle.bt_value.specs.Keys.{find};
ghost use Rattle.bt_value.specs.declared.message.Out.TheVariants as out;
ghost use Rattle.bt_meaning.specs.Branches as branch;
ghost use Rattle.bt_meaning.specs.Operators.{decides};
ghost use Rattle.bt_meaning.specs.Outcomes as spec;
ghost use Rattle.bt_contexts.specs.Seen.{all_names, names_seen, read_seen, root_seen, this_seen, vars_seen, out_of};

use crate::content::{document, this_failure};
use crate::context::{Ctx, Got, Names, Read, This};
use bt_kinds::kinds::{Kind, failure, wrong};
use bt_ports::NoMemory;
use bt_ports::text::Text;
use bt_tree::Key;
use bt_value::{Members, Out, Val, copy, equals, path_get};
use sqlite_items::Items;
use std::alloc::Global;
use std::slice;

/// The outcome itself, copied where it stands in the context.
pub fn own(alloc: Global, got: Got<'_>) -> Result<Out, NoMemory>
    ensures { IfOk result (λ o. o ≡ out_of got.entry) }
{
    match got {
        Got::Known(v) => Ok(Out::Value(copy(alloc, v)?)),
        Got::Made(o) => Ok(o),
    }
}

/// What a document that was read gives.
fn read_out<'a>(alloc: Global, read: Read<'a>) -> Result<Got<'a>, NoMemory>
    ensures { IfOk result (λ g. out_of g ≡ read_seen read.entry) }
{
    match read {
        Read::Known(v) => Ok(Got::Known(v)),
        Read::Failed(t) => Ok(Got::Made(Out::Failed(Text::make(alloc, t)?))),
    }
}

/// What `this` gives.
pub fn this_out<'a>(alloc: Global, c: &Ctx<'a>) -> Result<Got<'a>, NoMemory>
    ensures { IfOk result (λ g. out_of g ≡ this_seen c.now.this c.now.msg.now) }
{
    match c.this {
        This::Content => match document(alloc, c.msg.content.as_slice())? {
            Ok(v) => Ok(Got::Made(Out::Value(v))),
            Err(fault) => Ok(Got::Made(Out::Failed(Text::make(alloc, this_failure(fault))?))),
        },
        This::Known(v) => Ok(Got::Known(v)),
        This::Failed(t) => Ok(Got::Made(Out::Failed(Text::make(alloc, t)?))),
    }
}

/// What `root` gives.
pub fn root_out<'a>(alloc: Global, root: Option<Read<'a>>) -> Result<Got<'a>, NoMemory>
    ensures { IfOk result (λ g. out_of g ≡ root_seen root.entry) }
{
    match root {
        Some(read) => read_out(alloc, read),
        None => Ok(Got::Made(Out::Value(Val::Null))),
    }
}

/// The value of a name.
fn lookup<'a>(names: &Names<'a>, key: &str) -> Option<&'a Val>
    ensures { option_copied result ≡ find key.now (names_seen names.now) }
{
    match names {
        Names::First(name, v) => { if key == *name { Some(v) } else { None } }
        Names::More(name, v, more) => {
            if key == *name {
                Some(v)
            } else {
                lookup(more, key)
            }
        }
    }
}

/// The value of a name in force.
fn find_name<'a>(names: Option<&'a Names<'a>>, key: &str) -> Option<&'a Val>
    ensures { option_copied result ≡ find key.now (all_names names.entry) }
{
    match names {
        Some(names) => lookup(names, key),
        None => None,
    }
}

/// One name more.
pub fn bind<'a>(names: Option<&'a Names<'a>>, name: &'a str, v: &'a Val) -> Names<'a>
    ensures { names_seen result ≡ (name.now, v.now) ∷ all_names names.entry }
{
    match names {
        Some(names) => Names::More(name, v, names),
        None => Names::First(name, v),
    }
}

fn find_var<'a>(vars: Option<&'a Members>, key: &str) -> Option<&'a Val>
    ensures { option_copied result ≡ find key.now (vars_seen vars.entry) }
{
    match vars {
        Some(members) => members.find(key),
        None => None,
    }
}

/// What a variable gives.
pub fn variable<'a>(
    alloc: Global,
    vars: Option<&'a Members>,
    name: &str,
) -> Result<Got<'a>, NoMemory>
    ensures { IfOk result (λ g. out_of g ≡ spec.variable (find name.now (vars_seen vars.entry)) name.now) }
{
    match find_var(vars, name) {
        Some(v) => Ok(Got::Known(v)),
        None => {
            let mut text = Text::make(alloc, "$")?;
            text.push_str(name)?;
            Ok(Got::Made(failure(alloc, text.as_str(), "not set")?))
        }
    }
}

/// A key as text.
pub fn key_text(key: &Key) -> &str
    ensures { result.now ≡ spec.key_text key.now }
{
    match key {
        Key::Name(n) => n.as_str(),
        Key::Quoted(n) => n.as_str(),
    }
}

/// The value one step further by a name, or null.
#[tactic(auto, unfolding(bt_value::specs::Paths::at_path))]
fn member_at<'a>(v: &'a Val, name: &Text) -> Got<'a>
    ensures { out_of result ≡ spec.segment name.now (out.Value v.now) }
{
    match path_get(v, slice::from_ref(name)) {
        Some(w) => Got::Known(w),
        None => Got::Made(Out::Value(Val::Null)),
    }
}

/// What stands behind `.` and a name.
pub fn segment<'a>(alloc: Global, name: &Text, got: Got<'a>) -> Result<Got<'a>, NoMemory>
    ensures { IfOk result (λ g. out_of g ≡ spec.segment name.now (out_of got.entry)) }
{
    match got {
        Got::Known(v) => Ok(member_at(v, name)),
        Got::Made(Out::Value(v)) => Ok(Got::Made(own(alloc, member_at(&v, name))?)),
        Got::Made(Out::Failed(t)) => Ok(Got::Made(Out::Failed(t))),
        Got::Made(Out::Deleted) => Ok(Got::Made(wrong(alloc, "path", Kind::Deleted)?)),
        Got::Made(Out::Nothing) => Ok(Got::Made(wrong(alloc, "path", Kind::Nothing)?)),
    }
}

/// What a name alone gives.
pub fn named<'a>(alloc: Global, name: &Text, c: &Ctx<'a>) -> Result<Got<'a>, NoMemory>
    ensures { IfOk result (λ g. out_of g ≡ spec.name_value (find name.now (all_names c.now.names)) name.now (this_seen c.now.this c.now.msg.now)) }
{
    match find_name(c.names, name.as_str()) {
        Some(v) => Ok(Got::Known(v)),
        None => {
            let got = this_out(alloc, c)?;
            segment(alloc, name, got)
        }
    }
}

/// The digits of a number.
#[tactic(auto, unfolding(bt_meaning::specs::Outcomes::digits))]
pub fn digits(alloc: Global, n: i64) -> Result<Text, NoMemory>
    ensures { IfOk result (λ t. t ≡ spec.digits n) }
{
    match format!(in alloc; "{n}") {
        Ok(text) => Ok(Text::from_string(text)),
        Err(_) => Err(NoMemory),
    }
}

/// Whether a literal equals what a query gave.
pub fn is_value(v: &Val, got: &Got<'_>) -> bool
    ensures { result ≡ branch.matches_literal v.now (out_of got.now) }
{
    match got {
        Got::Known(w) => equals(v, w),
        Got::Made(Out::Value(w)) => equals(v, w),
        _ => false,
    }
}

/// Whether a query failed.
pub fn is_failed(got: &Got<'_>) -> bool
    ensures { result ≡ spec.is_failed (out_of got.now) }
{
    match got {
        Got::Made(Out::Failed(_)) => true,
        _ => false,
    }
}

/// Whether an outcome is a failure.
pub fn out_failed(o: &Out) -> bool
    ensures { result ≡ spec.is_failed o.now }
{
    match o {
        Out::Failed(_) => true,
        _ => false,
    }
}

/// Whether a boolean is true, and nothing for another value.
#[tactic(auto, unfolding(bt_meaning::specs::Outcomes::truth))]
pub fn truth(v: &Val) -> Option<bool>
    ensures { result ≡ spec.truth v.now }
{
    match v {
        Val::Bool(b) => Some(*b),
        _ => None,
    }
}

#[tactic(auto, unfolding(bt_meaning::specs::Outcomes::is_null))]
fn is_null(v: &Val) -> bool
    ensures { result ≡ spec.is_null v.now }
{
    match v {
        Val::Null => true,
        _ => false,
    }
}

/// Whether a value is true.
pub fn is_true(v: &Val) -> bool
    ensures { result ≡ spec.is_true v.now }
{
    match truth(v) {
        Some(b) => b,
        None => false,
    }
}

/// Whether a query gave true.
pub fn passes(got: &Got<'_>) -> bool
    ensures { result ≡ spec.passes (out_of got.now) }
{
    match got {
        Got::Known(v) => is_true(v),
        Got::Made(Out::Value(v)) => is_true(v),
        _ => false,
    }
}

/// Whether a query gave a value other than null.
pub fn settles(got: &Got<'_>) -> bool
    ensures { result ≡ spec.settles (out_of got.now) }
{
    match got {
        Got::Known(v) => !is_null(v),
        Got::Made(Out::Value(v)) => !is_null(v),
        _ => false,
    }
}

/// Whether the left side of `&&` or `||` decides: a failure, or the boolean.
pub fn decides(w: bool, o: &Out) -> bool
    ensures { result ≡ decides w o.now }
{
    match o {
        Out::Failed(_) => true,
        Out::Value(v) => match truth(v) {
            Some(b) => b == w,
            None => false,
        },
        _ => false,
    }
}

/// Puts a value at the end.
pub fn push(values: &mut Items<Val>, v: Val) -> Result<(), NoMemory>
    ensures ok { OnOk result (values.new ≡ values.old ++ v ∷ []) }
    ensures err { OnErr result (values.new ≡ values.old) }
{
    match values.push(v) {
        Ok(()) => Ok(()),
        Err(_) => Err(NoMemory),
    }
}
