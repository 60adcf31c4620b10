//! Processors that give one message or none for each.
ghost use Rattle.std.specs.Prelude.{◌≡◌, ◌++◌, ◌∷◌, [], IfErr, IfOk, OnOk, map};
ghost use Rattle.bt_messages.specs.Cases.{in_branch, in_case};
ghost use Rattle.bt_making.specs.Sources.{AreMade, AreRefused, mapping};
ghost use Rattle.bt_schema.specs.declared.forms.Language.TheVariants as language;
ghost use Rattle.bt_compile.specs.Kinds as kinds;
ghost use Rattle.bt_compile.specs.Made.{blank_branch, blank_case, blank_single, branch_parts, case_parts, joined, single_parts};
ghost use Rattle.bt_compile.specs.Outlines.{blank, listed, text_as};
ghost use Rattle.bt_compile.specs.Reading as spec;
ghost use Rattle.bt_compile.specs.Reading.{met, reading};

use crate::fields::{field, is_set_at, text_of};
use crate::kinds::{Kind, chosen};
use crate::texts::{optional_check_at, optional_mapping_at};
use bt_making::{Refusal, make_mapping};
use bt_messages::{Branch, Case, MessageProcessor};
use bt_ports::NoMemory;
use bt_ready::Ready;
use bt_schema::{nth, under};
use bt_value::{Members, Val, Vals};
use sqlite_items::Items;
use std::alloc::Global;

type Singles = Items<MessageProcessor>;

type Cases = Items<Case<MessageProcessor>>;

// A processor that leaves all messages as they are.
fn idle(alloc: Global) -> MessageProcessor
    ensures { result ≡ spec.idle_single }
{
    MessageProcessor::Try(Items::new(alloc))
}

#[cycle(single)]
fn single(alloc: Global, v: &Val, at: &str) -> Result<MessageProcessor, Refusal>
    ensures form { IfOk result (λ p. blank_single p ≡ (reading v.now).single.form) }
    ensures made { IfOk result (λ p. AreMade ((reading v.now).single.texts at.now) (single_parts p)) }
    ensures refused { IfErr result (AreRefused ((reading v.now).single.texts at.now)) }
{
    match v {
        Val::Obj(fields) => component(alloc, fields, at),
        _ => Ok(idle(alloc)),
    }
}

#[cycle(single)]
#[tactic(auto, using(crate::proofs::Finds::chosen_met))]
fn component(alloc: Global, fields: &Members, at: &str) -> Result<MessageProcessor, Refusal>
    ensures form { IfOk result (λ p. blank_single p ≡ (spec.single_in (kinds.chosen (met fields.now))).form) }
    ensures made { IfOk result (λ p. AreMade ((spec.single_in (kinds.chosen (met fields.now))).texts at.now) (single_parts p)) }
    ensures refused { IfErr result (AreRefused ((spec.single_in (kinds.chosen (met fields.now))).texts at.now)) }
{
    match chosen(fields) {
        Some((kind, key, v)) => {
            let here = under(alloc, at, key)?;
            single_as(alloc, kind, v, here.as_str())
        }
        None => Ok(idle(alloc)),
    }
}

/// The processor of a kind whose fields a value is.
#[cycle(single)]
pub fn single_as(alloc: Global, kind: Kind, v: &Val, at: &str) -> Result<MessageProcessor, Refusal>
    ensures form { IfOk result (λ p. blank_single p ≡ (spec.single_as kind (reading v.now)).form) }
    ensures made { IfOk result (λ p. AreMade ((spec.single_as kind (reading v.now)).texts at.now) (single_parts p)) }
    ensures refused { IfErr result (AreRefused ((spec.single_as kind (reading v.now)).texts at.now)) }
{
    match kind {
        Kind::Mapping => Ok(MessageProcessor::Mapping(mapping_of(alloc, v, at)?)),
        Kind::Try => Ok(MessageProcessor::Try(singles(alloc, v, at)?)),
        Kind::ForEach => Ok(MessageProcessor::ForEach(singles(alloc, v, at)?)),
        Kind::Catch => Ok(MessageProcessor::Catch(singles(alloc, v, at)?)),
        Kind::Switch => Ok(MessageProcessor::Switch(cases(alloc, v, at)?)),
        Kind::Branch => Ok(MessageProcessor::Branch(branch(alloc, v, at)?)),
        _ => Ok(idle(alloc)),
    }
}

#[tactic(auto, using(bt_making::proofs::Refusing::mapping_refused))]
fn mapping_of(alloc: Global, v: &Val, at: &str) -> Result<Ready, Refusal>
    ensures made { IfOk result (λ r. AreMade ((text_as language.Mapping (reading v.now).text).texts at.now) (mapping r ∷ [])) }
    ensures refused { IfErr result (AreRefused ((text_as language.Mapping (reading v.now).text).texts at.now)) }
{
    make_mapping(alloc, text_of(v), at)
}

#[cycle(single)]
fn singles(alloc: Global, v: &Val, at: &str) -> Result<Singles, Refusal>
    ensures form { IfOk result (λ ps. map blank_single ps ≡ (reading v.now).singles.form) }
    ensures made { IfOk result (λ ps. AreMade ((reading v.now).singles.texts at.now) (joined (map single_parts ps))) }
    ensures refused { IfErr result (AreRefused ((reading v.now).singles.texts at.now)) }
{
    match v {
        Val::Arr(items) => each_single(alloc, items, at),
        _ => Ok(Items::new(alloc)),
    }
}

#[cycle(single)]
#[tactic(auto, using(bt_value::proofs::Depths::item_depth))]
fn each_single(alloc: Global, items: &Vals, at: &str) -> Result<Singles, Refusal>
    ensures form { IfOk result (λ ps. map blank_single ps ≡ (listed (map (λ r. r.single) (map reading items.now))).form) }
    ensures made { IfOk result (λ ps. AreMade ((listed (map (λ r. r.single) (map reading items.now))).texts at.now) (joined (map single_parts ps))) }
    ensures refused { IfErr result (AreRefused ((listed (map (λ r. r.single) (map reading items.now))).texts at.now)) }
{
    let mut out = Items::new(alloc);
    for (i, item) in items.as_slice().iter().enumerate() {
        let here = nth(alloc, at, i)?;
        let p = single(alloc, item, here.as_str())?;
        push_single(&mut out, p)?;
    }
    Ok(out)
}

fn push_single(out: &mut Singles, p: MessageProcessor) -> Result<(), NoMemory>
    ensures { OnOk result (out.new ≡ out.old ++ p ∷ []) }
{
    out.push(p)?;
    Ok(())
}

#[cycle(single)]
fn cases(alloc: Global, v: &Val, at: &str) -> Result<Cases, Refusal>
    ensures form { IfOk result (λ ks. map blank_case (map (in_case blank_single) ks) ≡ (reading v.now).switch_cases.form) }
    ensures made { IfOk result (λ ks. AreMade ((reading v.now).switch_cases.texts at.now) (joined (map case_parts (map (in_case single_parts) ks)))) }
    ensures refused { IfErr result (AreRefused ((reading v.now).switch_cases.texts at.now)) }
{
    match v {
        Val::Arr(items) => each_case(alloc, items, at),
        _ => Ok(Items::new(alloc)),
    }
}

#[cycle(single)]
#[tactic(auto, using(bt_value::proofs::Depths::item_depth))]
fn each_case(alloc: Global, items: &Vals, at: &str) -> Result<Cases, Refusal>
    ensures form { IfOk result (λ ks. map blank_case (map (in_case blank_single) ks) ≡ (listed (map (λ r. r.switch_case) (map reading items.now))).form) }
    ensures made { IfOk result (λ ks. AreMade ((listed (map (λ r. r.switch_case) (map reading items.now))).texts at.now) (joined (map case_parts (map (in_case single_parts) ks)))) }
    ensures refused { IfErr result (AreRefused ((listed (map (λ r. r.switch_case) (map reading items.now))).texts at.now)) }
{
    let mut out = Items::new(alloc);
    for (i, item) in items.as_slice().iter().enumerate() {
        let here = nth(alloc, at, i)?;
        let k = switch_case(alloc, item, here.as_str())?;
        push_case(&mut out, k)?;
    }
    Ok(out)
}

fn push_case(out: &mut Cases, k: Case<MessageProcessor>) -> Result<(), NoMemory>
    ensures { OnOk result (out.new ≡ out.old ++ k ∷ []) }
{
    out.push(k)?;
    Ok(())
}

#[cycle(single)]
fn switch_case(alloc: Global, v: &Val, at: &str) -> Result<Case<MessageProcessor>, Refusal>
    ensures form { IfOk result (λ k. blank_case (in_case blank_single k) ≡ (reading v.now).switch_case.form) }
    ensures made { IfOk result (λ k. AreMade ((reading v.now).switch_case.texts at.now) (case_parts (in_case single_parts k))) }
    ensures refused { IfErr result (AreRefused ((reading v.now).switch_case.texts at.now)) }
{
    match v {
        Val::Obj(fields) => case_in(alloc, fields, at),
        _ => Ok(Case {
            check: None,
            processors: Items::new(alloc),
            fallthrough: false,
        }),
    }
}

#[cycle(single)]
#[tactic(auto, using(bt_making::proofs::Along::made_along, bt_making::proofs::Along::refused_before, bt_making::proofs::Along::refused_behind))]
fn case_in(alloc: Global, fields: &Members, at: &str) -> Result<Case<MessageProcessor>, Refusal>
    ensures form { IfOk result (λ k. blank_case (in_case blank_single k) ≡ (spec.switch_case_in (met fields.now)).form) }
    ensures made { IfOk result (λ k. AreMade ((spec.switch_case_in (met fields.now)).texts at.now) (case_parts (in_case single_parts k))) }
    ensures refused { IfErr result (AreRefused ((spec.switch_case_in (met fields.now)).texts at.now)) }
{
    let check = optional_check_at(alloc, fields, "check", at)?;
    let processors = singles_at(alloc, fields, "processors", at)?;
    Ok(Case {
        check,
        processors,
        fallthrough: is_set_at(fields, "fallthrough"),
    })
}

#[cycle(single)]
fn branch(alloc: Global, v: &Val, at: &str) -> Result<Branch<MessageProcessor>, Refusal>
    ensures form { IfOk result (λ b. blank_branch (in_branch blank_single b) ≡ (reading v.now).branch.form) }
    ensures made { IfOk result (λ b. AreMade ((reading v.now).branch.texts at.now) (branch_parts (in_branch single_parts b))) }
    ensures refused { IfErr result (AreRefused ((reading v.now).branch.texts at.now)) }
{
    match v {
        Val::Obj(fields) => branch_in(alloc, fields, at),
        _ => Ok(Branch {
            request: None,
            processors: Items::new(alloc),
            result: None,
        }),
    }
}

#[cycle(single)]
#[tactic(auto, using(bt_making::proofs::Along::made_along, bt_making::proofs::Along::refused_before, bt_making::proofs::Along::refused_behind))]
fn branch_in(alloc: Global, fields: &Members, at: &str) -> Result<Branch<MessageProcessor>, Refusal>
    ensures form { IfOk result (λ b. blank_branch (in_branch blank_single b) ≡ (spec.branch_in (met fields.now)).form) }
    ensures made { IfOk result (λ b. AreMade ((spec.branch_in (met fields.now)).texts at.now) (branch_parts (in_branch single_parts b))) }
    ensures refused { IfErr result (AreRefused ((spec.branch_in (met fields.now)).texts at.now)) }
{
    let processors = singles_at(alloc, fields, "processors", at)?;
    let request = optional_mapping_at(alloc, fields, "request_map", at)?;
    let back = optional_mapping_at(alloc, fields, "result_map", at)?;
    Ok(Branch {
        request,
        processors,
        result: back,
    })
}

#[cycle(single)]
#[tactic(auto, using(crate::proofs::Finds::find_met))]
fn singles_at(alloc: Global, fields: &Members, key: &str, at: &str) -> Result<Singles, Refusal>
    ensures form { IfOk result (λ ps. map blank_single ps ≡ (spec.singles_at key.now (met fields.now)).form) }
    ensures made { IfOk result (λ ps. AreMade ((spec.singles_at key.now (met fields.now)).texts at.now) (joined (map single_parts ps))) }
    ensures refused { IfErr result (AreRefused ((spec.singles_at key.now (met fields.now)).texts at.now)) }
{
    match field(fields, key) {
        Some(v) => {
            let here = under(alloc, at, key)?;
            singles(alloc, v, here.as_str())
        }
        None => Ok(Items::new(alloc)),
    }
}
