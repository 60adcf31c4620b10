//! Inputs made ready.
ghost use Rattle.std.specs.Prelude.{◌≡◌, ◌++◌, ◌∷◌, [], IfErr, IfOk, OnOk, codes, map};
ghost use Rattle.bt_making.specs.Sources.{AreMade, AreRefused};
ghost use Rattle.bt_outlines.specs.Outlines.{blank, joined, listed, part_of};
ghost use Rattle.bt_input_plan.specs.Kinds as kinds;
ghost use Rattle.bt_input_plan.specs.Made.{bare, blank_policy, blanked, parts};
ghost use Rattle.bt_input_plan.specs.Reading as reads;
ghost use Rattle.bt_input_plan.specs.Reading.{met, reading};
ghost use Rattle.bt_input_plan.specs.Views.{seen};
ghost use Rattle.bt_input_plan.specs.declared.plan.InputPlan.TheVariants as input;

use crate::fields::{count_at, field, paths, size_at, text_at};
use crate::kinds::{Kind, chosen};
use crate::plan::{InputPlan, InputPlans, InputPolicy, Names};
use crate::scanners::{Scanner, scanned};
use bt_making::Refusal;
use bt_outlines::{check_at, optional_check_at};
use bt_ports::NoMemory;
use bt_ports::blob::Blob;
use bt_ready::Ready;
use bt_schema::{nth, under};
use bt_value::{Members, Val, Vals};
use sqlite_items::{Boxed, Items};
use std::alloc::Global;

/// Every item is a batch.
fn off() -> InputPolicy
    ensures { result ≡ reads.off }
{
    InputPolicy {
        count: 0,
        byte_size: 0,
        check: None,
    }
}

/// The lines of standard input.
pub fn default(alloc: Global) -> Result<InputPlan, NoMemory>
    ensures form { IfOk result (λ i. blanked i ≡ reads.default) }
    ensures texts { IfOk result (λ i. parts i ≡ []) }
{
    Ok(InputPlan::Stdin(Blob::make(alloc, b"\n")?, off()))
}

fn stdin_as(alloc: Global, scanner: Scanner<'_>) -> Result<InputPlan, NoMemory>
    ensures form { IfOk result (λ i. blanked i ≡ reads.stdin_as (seen scanner.entry)) }
    ensures texts { IfOk result (λ i. parts i ≡ []) }
{
    match scanner {
        Scanner::Lines(delimiter) => Ok(InputPlan::Stdin(
            Blob::make(alloc, delimiter.as_bytes())?,
            off(),
        )),
        Scanner::Records(comma, header) => Ok(InputPlan::Csv(Names::new(alloc), comma, header)),
    }
}

fn file_as(alloc: Global, names: Names, scanner: Scanner<'_>) -> Result<InputPlan, NoMemory>
    ensures form { IfOk result (λ i. blanked i ≡ reads.file_as names.list (seen scanner.entry)) }
    ensures texts { IfOk result (λ i. parts i ≡ []) }
{
    match scanner {
        Scanner::Lines(delimiter) => Ok(InputPlan::File(
            names,
            Blob::make(alloc, delimiter.as_bytes())?,
            off(),
        )),
        Scanner::Records(comma, header) => Ok(InputPlan::Csv(names, comma, header)),
    }
}

fn is_off(policy: &InputPolicy) -> bool
    ensures { result ≡ reads.is_off (blank_policy policy.now) }
{
    policy.count == 0 && policy.byte_size == 0 && policy.check.is_none()
}

fn boxed(alloc: Global, i: InputPlan) -> Result<Boxed<InputPlan>, NoMemory>
    ensures { IfOk result (λ b. b ≡ i) }
{
    Ok(Boxed::new(alloc, i)?)
}

fn regrouped(alloc: Global, child: InputPlan, policy: InputPolicy) -> Result<InputPlan, NoMemory>
    ensures form { IfOk result (λ i. blanked i ≡ input.Regroup (blanked child) (blank_policy policy)) }
    ensures texts { IfOk result (λ i. parts i ≡ part_of policy.check ++ parts child) }
{
    Ok(InputPlan::Regroup(boxed(alloc, child)?, policy))
}

// An input with a policy: lines are batched by it as they are read, and the items of any other input are put in other batches.
fn batched(alloc: Global, child: InputPlan, policy: InputPolicy) -> Result<InputPlan, NoMemory>
    ensures form { IfOk result (λ i. blanked i ≡ reads.batched (blank_policy policy) (blanked child)) }
    ensures texts { IfOk result (λ i. parts i ≡ part_of policy.check ++ parts child) }
{
    match child {
        InputPlan::Stdin(delimiter, own) => {
            if is_off(&own) {
                Ok(InputPlan::Stdin(delimiter, policy))
            } else {
                regrouped(alloc, InputPlan::Stdin(delimiter, own), policy)
            }
        }
        InputPlan::File(names, delimiter, own) => {
            if is_off(&own) {
                Ok(InputPlan::File(names, delimiter, policy))
            } else {
                regrouped(alloc, InputPlan::File(names, delimiter, own), policy)
            }
        }
        InputPlan::Csv(names, comma, header) => {
            regrouped(alloc, InputPlan::Csv(names, comma, header), policy)
        }
        InputPlan::Sequence(inputs) => regrouped(alloc, InputPlan::Sequence(inputs), policy),
        InputPlan::Until(inner, check) => regrouped(alloc, InputPlan::Until(inner, check), policy),
        InputPlan::Regroup(inner, own) => regrouped(alloc, InputPlan::Regroup(inner, own), policy),
    }
}

fn policy_in(alloc: Global, fields: &Members, at: &str) -> Result<InputPolicy, Refusal>
    ensures form { IfOk result (λ i. blank_policy i ≡ (reads.policy_in (met fields.now)).form) }
    ensures made { IfOk result (λ i. AreMade ((reads.policy_in (met fields.now)).texts at.now) (part_of i.check)) }
    ensures refused { IfErr result (AreRefused ((reads.policy_in (met fields.now)).texts at.now)) }
{
    let check = optional_check_at(alloc, text_at(fields, "check"), "check", at)?;
    Ok(InputPolicy {
        count: count_at(fields),
        byte_size: size_at(fields),
        check,
    })
}

fn policy(alloc: Global, v: &Val, at: &str) -> Result<InputPolicy, Refusal>
    ensures form { IfOk result (λ i. blank_policy i ≡ ((reading v.now).policy).form) }
    ensures made { IfOk result (λ i. AreMade (((reading v.now).policy).texts at.now) (part_of i.check)) }
    ensures refused { IfErr result (AreRefused (((reading v.now).policy).texts at.now)) }
{
    match v {
        Val::Obj(fields) => policy_in(alloc, fields, at),
        _ => Ok(off()),
    }
}

#[tactic(auto, using(crate::proofs::Finds::find_met))]
fn policy_at(alloc: Global, fields: &Members, at: &str) -> Result<InputPolicy, Refusal>
    ensures form { IfOk result (λ i. blank_policy i ≡ (reads.policy_at (codes "policy") (met fields.now)).form) }
    ensures made { IfOk result (λ i. AreMade ((reads.policy_at (codes "policy") (met fields.now)).texts at.now) (part_of i.check)) }
    ensures refused { IfErr result (AreRefused ((reads.policy_at (codes "policy") (met fields.now)).texts at.now)) }
{
    match fields.find("policy") {
        Some(v) => {
            let here = under(alloc, at, "policy")?;
            policy(alloc, v, here.as_str())
        }
        None => Ok(off()),
    }
}

/// The input that a value is.
#[cycle(input)]
pub fn input(alloc: Global, v: &Val, at: &str) -> Result<InputPlan, Refusal>
    ensures form { IfOk result (λ i. blanked i ≡ ((reading v.now).input).form) }
    ensures made { IfOk result (λ i. AreMade (((reading v.now).input).texts at.now) (parts i)) }
    ensures refused { IfErr result (AreRefused (((reading v.now).input).texts at.now)) }
{
    match v {
        Val::Obj(fields) => component(alloc, fields, at),
        _ => Ok(default(alloc)?),
    }
}

#[cycle(input)]
#[tactic(auto, using(crate::proofs::Finds::chosen_met))]
fn component(alloc: Global, fields: &Members, at: &str) -> Result<InputPlan, Refusal>
    ensures form { IfOk result (λ i. blanked i ≡ (reads.input_in (kinds.chosen (met fields.now))).form) }
    ensures made { IfOk result (λ i. AreMade ((reads.input_in (kinds.chosen (met fields.now))).texts at.now) (parts i)) }
    ensures refused { IfErr result (AreRefused ((reads.input_in (kinds.chosen (met fields.now))).texts at.now)) }
{
    match chosen(fields) {
        Some((kind, key, v)) => {
            let here = under(alloc, at, key)?;
            input_as(alloc, kind, v, here.as_str())
        }
        None => Ok(default(alloc)?),
    }
}

// The input of a kind whose value this is.
#[cycle(input)]
fn input_as(alloc: Global, kind: Kind, v: &Val, at: &str) -> Result<InputPlan, Refusal>
    ensures form { IfOk result (λ i. blanked i ≡ (reads.input_as kind (reading v.now)).form) }
    ensures made { IfOk result (λ i. AreMade ((reads.input_as kind (reading v.now)).texts at.now) (parts i)) }
    ensures refused { IfErr result (AreRefused ((reads.input_as kind (reading v.now)).texts at.now)) }
{
    match kind {
        Kind::Stdin => Ok(stdin_as(alloc, scanned(v))?),
        Kind::File => Ok(file_as(alloc, paths(alloc, v)?, scanned(v))?),
        Kind::Batched => with_fields(alloc, Kind::Batched, v, at),
        Kind::Sequence => with_fields(alloc, Kind::Sequence, v, at),
        Kind::ReadUntil => with_fields(alloc, Kind::ReadUntil, v, at),
    }
}

#[cycle(input)]
fn with_fields(alloc: Global, kind: Kind, v: &Val, at: &str) -> Result<InputPlan, Refusal>
    ensures form { IfOk result (λ i. blanked i ≡ ((reading v.now).with_fields kind).form) }
    ensures made { IfOk result (λ i. AreMade (((reading v.now).with_fields kind).texts at.now) (parts i)) }
    ensures refused { IfErr result (AreRefused (((reading v.now).with_fields kind).texts at.now)) }
{
    match v {
        Val::Obj(fields) => input_in(alloc, kind, fields, at),
        _ => Ok(default(alloc)?),
    }
}

// The input of a kind that has these fields.
#[cycle(input)]
fn input_in(alloc: Global, kind: Kind, fields: &Members, at: &str) -> Result<InputPlan, Refusal>
    ensures form { IfOk result (λ i. blanked i ≡ (reads.with_fields_in kind (met fields.now)).form) }
    ensures made { IfOk result (λ i. AreMade ((reads.with_fields_in kind (met fields.now)).texts at.now) (parts i)) }
    ensures refused { IfErr result (AreRefused ((reads.with_fields_in kind (met fields.now)).texts at.now)) }
{
    match kind {
        Kind::Batched => batched_in(alloc, fields, at),
        Kind::Sequence => Ok(InputPlan::Sequence(inputs_at(alloc, fields, at)?)),
        Kind::ReadUntil => until_in(alloc, fields, at),
        _ => Ok(default(alloc)?),
    }
}

#[cycle(input)]
#[tactic(auto, using(bt_making::proofs::Along::made_along, bt_making::proofs::Along::refused_before, bt_making::proofs::Along::refused_behind))]
fn batched_in(alloc: Global, fields: &Members, at: &str) -> Result<InputPlan, Refusal>
    ensures form { IfOk result (λ i. blanked i ≡ (reads.batched_in (met fields.now)).form) }
    ensures made { IfOk result (λ i. AreMade ((reads.batched_in (met fields.now)).texts at.now) (parts i)) }
    ensures refused { IfErr result (AreRefused ((reads.batched_in (met fields.now)).texts at.now)) }
{
    let policy = policy_at(alloc, fields, at)?;
    let child = input_at(alloc, fields, "child", at)?;
    Ok(batched(alloc, child, policy)?)
}

#[cycle(input)]
#[tactic(auto, using(bt_making::proofs::Along::made_along, bt_making::proofs::Along::refused_before, bt_making::proofs::Along::refused_behind))]
fn until_in(alloc: Global, fields: &Members, at: &str) -> Result<InputPlan, Refusal>
    ensures form { IfOk result (λ i. blanked i ≡ (reads.until_in (met fields.now)).form) }
    ensures made { IfOk result (λ i. AreMade ((reads.until_in (met fields.now)).texts at.now) (parts i)) }
    ensures refused { IfErr result (AreRefused ((reads.until_in (met fields.now)).texts at.now)) }
{
    let check = check_at(alloc, text_at(fields, "check"), "check", at)?;
    let child = input_at(alloc, fields, "input", at)?;
    Ok(InputPlan::Until(boxed(alloc, child)?, check))
}

/// The input that stands at a key.
#[cycle(input)]
#[tactic(auto, using(crate::proofs::Finds::find_met))]
pub fn input_at(alloc: Global, fields: &Members, key: &str, at: &str) -> Result<InputPlan, Refusal>
    ensures form { IfOk result (λ i. blanked i ≡ (reads.input_at key.now (met fields.now)).form) }
    ensures made { IfOk result (λ i. AreMade ((reads.input_at key.now (met fields.now)).texts at.now) (parts i)) }
    ensures refused { IfErr result (AreRefused ((reads.input_at key.now (met fields.now)).texts at.now)) }
{
    match field(fields, key) {
        Some(v) => {
            let here = under(alloc, at, key)?;
            input(alloc, v, here.as_str())
        }
        None => Ok(default(alloc)?),
    }
}

#[cycle(input)]
#[tactic(auto, using(crate::proofs::Finds::find_met))]
fn inputs_at(alloc: Global, fields: &Members, at: &str) -> Result<InputPlans, Refusal>
    ensures form { IfOk result (λ i. map blanked i ≡ (reads.inputs_at (codes "inputs") (met fields.now)).form) }
    ensures made { IfOk result (λ i. AreMade ((reads.inputs_at (codes "inputs") (met fields.now)).texts at.now) (joined (map parts i))) }
    ensures refused { IfErr result (AreRefused ((reads.inputs_at (codes "inputs") (met fields.now)).texts at.now)) }
{
    match field(fields, "inputs") {
        Some(v) => {
            let here = under(alloc, at, "inputs")?;
            inputs(alloc, v, here.as_str())
        }
        None => Ok(Items::new(alloc)),
    }
}

#[cycle(input)]
fn inputs(alloc: Global, v: &Val, at: &str) -> Result<InputPlans, Refusal>
    ensures form { IfOk result (λ i. map blanked i ≡ ((reading v.now).inputs).form) }
    ensures made { IfOk result (λ i. AreMade (((reading v.now).inputs).texts at.now) (joined (map parts i))) }
    ensures refused { IfErr result (AreRefused (((reading v.now).inputs).texts at.now)) }
{
    match v {
        Val::Arr(items) => each_input(alloc, items, at),
        _ => Ok(Items::new(alloc)),
    }
}

#[cycle(input)]
#[tactic(auto, using(bt_value::proofs::Depths::item_depth))]
fn each_input(alloc: Global, items: &Vals, at: &str) -> Result<InputPlans, Refusal>
    ensures form { IfOk result (λ i. map blanked i ≡ (listed (map (λ r. r.input) (map reading items.now))).form) }
    ensures made { IfOk result (λ i. AreMade ((listed (map (λ r. r.input) (map reading items.now))).texts at.now) (joined (map parts i))) }
    ensures refused { IfErr result (AreRefused ((listed (map (λ r. r.input) (map reading items.now))).texts at.now)) }
{
    let mut out = Items::new(alloc);
    for (i, item) in items.as_slice().iter().enumerate() {
        let here = nth(alloc, at, i)?;
        let x = input(alloc, item, here.as_str())?;
        push_input(&mut out, x)?;
    }
    Ok(out)
}

fn push_input(out: &mut InputPlans, x: InputPlan) -> Result<(), NoMemory>
    ensures { OnOk result (out.new ≡ out.old ++ x ∷ []) }
{
    out.push(x)?;
    Ok(())
}
