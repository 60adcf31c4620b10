//! The sinks of an output, in order of their first leaf.
ghost use Rattle.std.specs.Prelude.{◌≡◌, ◌++◌, ◌<◌, IfOk, OnOk, codes, is_some, length, map};
ghost use Rattle.bt_value.specs.Keys.{find};
ghost use Rattle.bt_output_plan.specs.Kinds as kinds;
ghost use Rattle.bt_output_plan.specs.Reading as reads;
ghost use Rattle.bt_output_plan.specs.Reading.{met, reading};
ghost use Rattle.bt_output_plan.specs.Drafts.{in_order};
ghost use Rattle.bt_output_plan.specs.Sinks as spec;

use crate::fields::{closing, field, path};
use crate::kinds::{Kind, chosen};
use bt_ports::NoMemory;
use bt_ports::blob::Blob;
use bt_ports::text::Text;
use bt_value::{Members, Val, Vals};
use std::alloc::Global;

/// The sinks of leaves, each with the closing bytes of its first one.
pub type Sinks = Vec<(Text, Blob)>;

/// The name of the sink of a file.
pub fn file_name(alloc: Global, path: &str) -> Result<Text, NoMemory>
    ensures { IfOk result (λ t. t ≡ codes "file:" ++ path.now) }
{
    let mut name = Text::make(alloc, "file:")?;
    name.push_str(path)?;
    Ok(name)
}

fn is_known(sinks: &[(Text, Blob)], name: &str) -> bool
    ensures { result ≡ is_some (find name.now sinks.now) }
{
    for sink in sinks {
        if name == sink.0.as_str() {
            return true;
        }
    }
    false
}

/// Puts in a sink that isn't there yet.
pub fn push_end(alloc: Global, name: Text, closing: &str, sinks: &mut Sinks) -> Result<(), NoMemory>
    ensures { OnOk result (sinks.new.items ≡ spec.with_end sinks.old.items (name, closing.now)) }
{
    if is_known(sinks.as_slice(), name.as_str()) {
        return Ok(());
    }
    let end = Blob::make(alloc, closing.as_bytes())?;
    sinks.push((name, end))?;
    Ok(())
}

/// Puts in the sinks of an output that aren't there yet.
#[cycle(push)]
pub fn push_output(alloc: Global, v: &Val, sinks: &mut Sinks) -> Result<(), NoMemory>
    ensures { OnOk result (sinks.new.items ≡ spec.with_ends sinks.old.items (reading v.now).output.ends) }
{
    match v {
        Val::Obj(fields) => push_component(alloc, fields, sinks),
        _ => Ok(()),
    }
}

#[cycle(push)]
#[tactic(auto, using(crate::proofs::Finds::chosen_met))]
fn push_component(alloc: Global, fields: &Members, sinks: &mut Sinks) -> Result<(), NoMemory>
    ensures { OnOk result (sinks.new.items ≡ spec.with_ends sinks.old.items (reads.output_in (kinds.chosen (met fields.now))).ends) }
{
    match chosen(fields) {
        Some((kind, _, v)) => push_as(alloc, kind, v, sinks),
        None => Ok(()),
    }
}

#[cycle(push)]
fn push_as(alloc: Global, kind: Kind, v: &Val, sinks: &mut Sinks) -> Result<(), NoMemory>
    ensures { OnOk result (sinks.new.items ≡ spec.with_ends sinks.old.items (reads.output_as kind (reading v.now)).ends) }
{
    match kind {
        Kind::Stdout => push_end(alloc, Text::make(alloc, "stdout")?, closing(v), sinks),
        Kind::File => push_end(alloc, file_name(alloc, path(v))?, closing(v), sinks),
        Kind::Reject => Ok(()),
        Kind::RejectErrored => push_output(alloc, v, sinks),
        Kind::Fallback => push_outputs(alloc, v, sinks),
        Kind::Drop => Ok(()),
        Kind::Broker => push_with_fields(alloc, Kind::Broker, v, sinks),
        Kind::Switch => push_with_fields(alloc, Kind::Switch, v, sinks),
        Kind::Retry => push_with_fields(alloc, Kind::Retry, v, sinks),
        Kind::DropOn => push_with_fields(alloc, Kind::DropOn, v, sinks),
    }
}

#[cycle(push)]
fn push_with_fields(alloc: Global, kind: Kind, v: &Val, sinks: &mut Sinks) -> Result<(), NoMemory>
    ensures { OnOk result (sinks.new.items ≡ spec.with_ends sinks.old.items ((reading v.now).with_fields kind).ends) }
{
    match v {
        Val::Obj(fields) => push_in(alloc, kind, fields, sinks),
        _ => Ok(()),
    }
}

#[cycle(push)]
fn push_in(alloc: Global, kind: Kind, fields: &Members, sinks: &mut Sinks) -> Result<(), NoMemory>
    ensures { OnOk result (sinks.new.items ≡ spec.with_ends sinks.old.items (reads.with_fields_in kind (met fields.now)).ends) }
{
    match kind {
        Kind::Broker => push_outputs_at(alloc, fields, sinks),
        Kind::Switch => push_cases_at(alloc, fields, sinks),
        Kind::Retry => push_output_at(alloc, fields, sinks),
        Kind::DropOn => push_output_at(alloc, fields, sinks),
        _ => Ok(()),
    }
}

#[cycle(push)]
#[tactic(auto, using(crate::proofs::Finds::find_met))]
fn push_output_at(alloc: Global, fields: &Members, sinks: &mut Sinks) -> Result<(), NoMemory>
    ensures { OnOk result (sinks.new.items ≡ spec.with_ends sinks.old.items (reads.output_of (find (codes "output") (met fields.now))).ends) }
{
    match field(fields, "output") {
        Some(v) => push_output(alloc, v, sinks),
        None => Ok(()),
    }
}

#[cycle(push)]
#[tactic(auto, using(crate::proofs::Finds::find_met))]
fn push_outputs_at(alloc: Global, fields: &Members, sinks: &mut Sinks) -> Result<(), NoMemory>
    ensures { OnOk result (sinks.new.items ≡ spec.with_ends sinks.old.items (reads.outputs_of (find (codes "outputs") (met fields.now))).ends) }
{
    match field(fields, "outputs") {
        Some(v) => push_outputs(alloc, v, sinks),
        None => Ok(()),
    }
}

#[cycle(push)]
fn push_outputs(alloc: Global, v: &Val, sinks: &mut Sinks) -> Result<(), NoMemory>
    ensures { OnOk result (sinks.new.items ≡ spec.with_ends sinks.old.items (reading v.now).outputs.ends) }
{
    match v {
        Val::Arr(items) => push_each(alloc, items, sinks),
        _ => Ok(()),
    }
}

#[cycle(push)]
#[tactic(auto, using(bt_value::proofs::Depths::item_depth, crate::proofs::Ending::with_more))]
fn push_each(alloc: Global, items: &Vals, sinks: &mut Sinks) -> Result<(), NoMemory>
    ensures { OnOk result (sinks.new.items ≡ spec.with_ends sinks.old.items (in_order (λ r. r.output) (map reading items.now)).ends) }
{
    for item in items.as_slice() {
        push_output(alloc, item, sinks)?;
    }
    Ok(())
}

#[cycle(push)]
#[tactic(auto, using(crate::proofs::Finds::find_met))]
fn push_cases_at(alloc: Global, fields: &Members, sinks: &mut Sinks) -> Result<(), NoMemory>
    ensures { OnOk result (sinks.new.items ≡ spec.with_ends sinks.old.items (reads.cases_of (find (codes "cases") (met fields.now))).ends) }
{
    match field(fields, "cases") {
        Some(v) => push_cases(alloc, v, sinks),
        None => Ok(()),
    }
}

#[cycle(push)]
fn push_cases(alloc: Global, v: &Val, sinks: &mut Sinks) -> Result<(), NoMemory>
    ensures { OnOk result (sinks.new.items ≡ spec.with_ends sinks.old.items (reading v.now).switch_cases.ends) }
{
    match v {
        Val::Arr(items) => push_each_case(alloc, items, sinks),
        _ => Ok(()),
    }
}

#[cycle(push)]
#[tactic(auto, using(bt_value::proofs::Depths::item_depth, crate::proofs::Ending::with_more))]
fn push_each_case(alloc: Global, items: &Vals, sinks: &mut Sinks) -> Result<(), NoMemory>
    ensures { OnOk result (sinks.new.items ≡ spec.with_ends sinks.old.items (in_order (λ r. r.switch_case) (map reading items.now)).ends) }
{
    for item in items.as_slice() {
        push_case(alloc, item, sinks)?;
    }
    Ok(())
}

#[cycle(push)]
fn push_case(alloc: Global, v: &Val, sinks: &mut Sinks) -> Result<(), NoMemory>
    ensures { OnOk result (sinks.new.items ≡ spec.with_ends sinks.old.items (reading v.now).switch_case.ends) }
{
    match v {
        Val::Obj(fields) => push_output_at(alloc, fields, sinks),
        _ => Ok(()),
    }
}
