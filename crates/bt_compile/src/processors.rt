//! Processors of any kind.
ghost use Rattle.std.specs.Prelude.{◌≡◌, ◌++◌, ◌∷◌, [], IfErr, IfOk, OnOk, codes, map};
ghost use Rattle.bt_making.specs.Sources.{AreMade, AreRefused, mapping, pieces};
ghost use Rattle.bt_schema.specs.declared.forms.Language.TheVariants as language;
ghost use Rattle.bt_compile.specs.Kinds as kinds;
ghost use Rattle.bt_compile.specs.Made.{blank_group, blanked, group_parts, in_group, joined, parts};
ghost use Rattle.bt_compile.specs.Outlines.{below, listed, text_as};
ghost use Rattle.bt_compile.specs.Reading as spec;
ghost use Rattle.bt_compile.specs.Reading.{met, reading};

use crate::fields::{field, format, size, text_at, value};
use crate::kinds::{Kind, chosen};
use crate::singles::single_as;
use bt_making::{Refusal, make_check, make_pieces};
use bt_mappings::Pieces;
use bt_ports::NoMemory;
use bt_proc::{Group, Processor, Procs};
use bt_ready::Ready;
use bt_schema::{nth, under};
use bt_value::{Members, Val, Vals};
use sqlite_items::Items;
use std::alloc::Global;

type Groups = Items<Group<Processor>>;

// A processor that leaves all messages as they are.
fn idle(alloc: Global) -> Processor
    ensures { result ≡ spec.idle }
{
    Processor::Try(Items::new(alloc))
}

#[cycle(processor)]
fn processor(alloc: Global, v: &Val, at: &str) -> Result<Processor, Refusal>
    ensures form { IfOk result (λ p. blanked p ≡ (reading v.now).processor.form) }
    ensures made { IfOk result (λ p. AreMade ((reading v.now).processor.texts at.now) (parts p)) }
    ensures refused { IfErr result (AreRefused ((reading v.now).processor.texts at.now)) }
{
    match v {
        Val::Obj(fields) => component(alloc, fields, at),
        _ => Ok(idle(alloc)),
    }
}

#[cycle(processor)]
#[tactic(auto, using(crate::proofs::Finds::chosen_met))]
fn component(alloc: Global, fields: &Members, at: &str) -> Result<Processor, Refusal>
    ensures form { IfOk result (λ p. blanked p ≡ (spec.processor_in (kinds.chosen (met fields.now))).form) }
    ensures made { IfOk result (λ p. AreMade ((spec.processor_in (kinds.chosen (met fields.now))).texts at.now) (parts p)) }
    ensures refused { IfErr result (AreRefused ((spec.processor_in (kinds.chosen (met fields.now))).texts at.now)) }
{
    match chosen(fields) {
        Some((kind, key, v)) => {
            let here = under(alloc, at, key)?;
            processor_as(alloc, kind, v, here.as_str())
        }
        None => Ok(idle(alloc)),
    }
}

// The processor of a kind whose fields a value is.
#[cycle(processor)]
fn processor_as(alloc: Global, kind: Kind, v: &Val, at: &str) -> Result<Processor, Refusal>
    ensures form { IfOk result (λ p. blanked p ≡ (spec.processor_as kind (reading v.now)).form) }
    ensures made { IfOk result (λ p. AreMade ((spec.processor_as kind (reading v.now)).texts at.now) (parts p)) }
    ensures refused { IfErr result (AreRefused ((spec.processor_as kind (reading v.now)).texts at.now)) }
{
    match kind {
        Kind::Mapping => Ok(Processor::Message(single_as(alloc, Kind::Mapping, v, at)?)),
        Kind::Switch => Ok(Processor::Message(single_as(alloc, Kind::Switch, v, at)?)),
        Kind::Branch => Ok(Processor::Message(single_as(alloc, Kind::Branch, v, at)?)),
        Kind::Try => Ok(Processor::Try(processors(alloc, v, at)?)),
        Kind::ForEach => Ok(Processor::ForEach(processors(alloc, v, at)?)),
        Kind::Catch => Ok(Processor::Catch(processors(alloc, v, at)?)),
        Kind::Split => Ok(Processor::Split(size(v))),
        Kind::GroupBy => Ok(Processor::GroupBy(groups(alloc, v, at)?)),
        Kind::GroupByValue => grouped_by(alloc, value(v), at),
        Kind::Archive => Ok(Processor::Archive(format(v))),
        Kind::Unarchive => Ok(Processor::Unarchive(format(v))),
    }
}

#[tactic(auto, using(bt_making::proofs::Refusing::pieces_refused))]
fn pieces_of(alloc: Global, text: &str, at: &str) -> Result<Pieces, Refusal>
    ensures made { IfOk result (λ p. AreMade ((spec.grouped_by text.now).texts at.now) (pieces p.list ∷ [])) }
    ensures refused { IfErr result (AreRefused ((spec.grouped_by text.now).texts at.now)) }
{
    make_pieces(alloc, text, at)
}

fn grouped_by(alloc: Global, text: &str, at: &str) -> Result<Processor, Refusal>
    ensures form { IfOk result (λ p. blanked p ≡ (below (codes "value") (spec.grouped_by text.now)).form) }
    ensures made { IfOk result (λ p. AreMade ((below (codes "value") (spec.grouped_by text.now)).texts at.now) (parts p)) }
    ensures refused { IfErr result (AreRefused ((below (codes "value") (spec.grouped_by text.now)).texts at.now)) }
{
    let here = under(alloc, at, "value")?;
    Ok(Processor::GroupByValue(pieces_of(alloc, text, here.as_str())?))
}

#[cycle(processor)]
fn processors(alloc: Global, v: &Val, at: &str) -> Result<Procs, Refusal>
    ensures form { IfOk result (λ ps. map blanked ps ≡ (reading v.now).processors.form) }
    ensures made { IfOk result (λ ps. AreMade ((reading v.now).processors.texts at.now) (joined (map parts ps))) }
    ensures refused { IfErr result (AreRefused ((reading v.now).processors.texts at.now)) }
{
    match v {
        Val::Arr(items) => each_processor(alloc, items, at),
        _ => Ok(Items::new(alloc)),
    }
}

/// The processors of a list that stands at a pointer.
#[cycle(processor)]
#[tactic(auto, using(bt_value::proofs::Depths::item_depth))]
pub fn each_processor(alloc: Global, items: &Vals, at: &str) -> Result<Procs, Refusal>
    ensures form { IfOk result (λ ps. map blanked ps ≡ (listed (map (λ r. r.processor) (map reading items.now))).form) }
    ensures made { IfOk result (λ ps. AreMade ((listed (map (λ r. r.processor) (map reading items.now))).texts at.now) (joined (map parts ps))) }
    ensures refused { IfErr result (AreRefused ((listed (map (λ r. r.processor) (map reading items.now))).texts at.now)) }
{
    let mut out = Items::new(alloc);
    for (i, item) in items.as_slice().iter().enumerate() {
        let here = nth(alloc, at, i)?;
        let p = processor(alloc, item, here.as_str())?;
        push_processor(&mut out, p)?;
    }
    Ok(out)
}

fn push_processor(out: &mut Procs, p: Processor) -> Result<(), NoMemory>
    ensures { OnOk result (out.new ≡ out.old ++ p ∷ []) }
{
    out.push(p)?;
    Ok(())
}

#[cycle(processor)]
fn groups(alloc: Global, v: &Val, at: &str) -> Result<Groups, Refusal>
    ensures form { IfOk result (λ gs. map blank_group (map (in_group blanked) gs) ≡ (reading v.now).groups.form) }
    ensures made { IfOk result (λ gs. AreMade ((reading v.now).groups.texts at.now) (joined (map group_parts (map (in_group parts) gs)))) }
    ensures refused { IfErr result (AreRefused ((reading v.now).groups.texts at.now)) }
{
    match v {
        Val::Arr(items) => each_group(alloc, items, at),
        _ => Ok(Items::new(alloc)),
    }
}

#[cycle(processor)]
#[tactic(auto, using(bt_value::proofs::Depths::item_depth))]
fn each_group(alloc: Global, items: &Vals, at: &str) -> Result<Groups, Refusal>
    ensures form { IfOk result (λ gs. map blank_group (map (in_group blanked) gs) ≡ (listed (map (λ r. r.group) (map reading items.now))).form) }
    ensures made { IfOk result (λ gs. AreMade ((listed (map (λ r. r.group) (map reading items.now))).texts at.now) (joined (map group_parts (map (in_group parts) gs)))) }
    ensures refused { IfErr result (AreRefused ((listed (map (λ r. r.group) (map reading items.now))).texts at.now)) }
{
    let mut out = Items::new(alloc);
    for (i, item) in items.as_slice().iter().enumerate() {
        let here = nth(alloc, at, i)?;
        let g = group(alloc, item, here.as_str())?;
        push_group(&mut out, g)?;
    }
    Ok(out)
}

fn push_group(out: &mut Groups, g: Group<Processor>) -> Result<(), NoMemory>
    ensures { OnOk result (out.new ≡ out.old ++ g ∷ []) }
{
    out.push(g)?;
    Ok(())
}

#[cycle(processor)]
fn group(alloc: Global, v: &Val, at: &str) -> Result<Group<Processor>, Refusal>
    ensures form { IfOk result (λ g. blank_group (in_group blanked g) ≡ (reading v.now).group.form) }
    ensures made { IfOk result (λ g. AreMade ((reading v.now).group.texts at.now) (group_parts (in_group parts g))) }
    ensures refused { IfErr result (AreRefused ((reading v.now).group.texts at.now)) }
{
    match v {
        Val::Obj(fields) => group_in(alloc, fields, at),
        _ => Ok(Group {
            check: check_of(alloc, "", at)?,
            processors: Items::new(alloc),
        }),
    }
}

#[cycle(processor)]
#[tactic(auto, using(bt_making::proofs::Along::made_along, bt_making::proofs::Along::refused_before, bt_making::proofs::Along::refused_behind))]
fn group_in(alloc: Global, fields: &Members, at: &str) -> Result<Group<Processor>, Refusal>
    ensures form { IfOk result (λ g. blank_group (in_group blanked g) ≡ (spec.group_in (met fields.now)).form) }
    ensures made { IfOk result (λ g. AreMade ((spec.group_in (met fields.now)).texts at.now) (group_parts (in_group parts g))) }
    ensures refused { IfErr result (AreRefused ((spec.group_in (met fields.now)).texts at.now)) }
{
    let check = check_of(alloc, text_at(fields, "check"), at)?;
    let processors = processors_at(alloc, fields, "processors", at)?;
    Ok(Group { check, processors })
}

// The check of a group.
fn check_of(alloc: Global, text: &str, at: &str) -> Result<Ready, Refusal>
    ensures made { IfOk result (λ r. AreMade ((below (codes "check") (text_as language.Check text.now)).texts at.now) (mapping r ∷ [])) }
    ensures refused { IfErr result (AreRefused ((below (codes "check") (text_as language.Check text.now)).texts at.now)) }
{
    let here = under(alloc, at, "check")?;
    query(alloc, text, here.as_str())
}

#[tactic(auto, using(bt_making::proofs::Refusing::check_refused))]
fn query(alloc: Global, text: &str, at: &str) -> Result<Ready, Refusal>
    ensures made { IfOk result (λ r. AreMade ((text_as language.Check text.now).texts at.now) (mapping r ∷ [])) }
    ensures refused { IfErr result (AreRefused ((text_as language.Check text.now).texts at.now)) }
{
    make_check(alloc, text, at)
}

#[cycle(processor)]
#[tactic(auto, using(crate::proofs::Finds::find_met))]
fn processors_at(alloc: Global, fields: &Members, key: &str, at: &str) -> Result<Procs, Refusal>
    ensures form { IfOk result (λ ps. map blanked ps ≡ (spec.processors_at key.now (met fields.now)).form) }
    ensures made { IfOk result (λ ps. AreMade ((spec.processors_at key.now (met fields.now)).texts at.now) (joined (map parts ps))) }
    ensures refused { IfErr result (AreRefused ((spec.processors_at key.now (met fields.now)).texts at.now)) }
{
    match field(fields, key) {
        Some(v) => {
            let here = under(alloc, at, key)?;
            processors(alloc, v, here.as_str())
        }
        None => Ok(Items::new(alloc)),
    }
}
