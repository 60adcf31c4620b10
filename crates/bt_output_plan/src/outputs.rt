//! Outputs made ready, with their leaves and holds numbered as they stand.
ghost use Rattle.std.specs.Prelude.{◌≡◌, ℕ, ◌++◌, ◌∷◌, [], IfErr, IfOk, OnOk, Some, codes, length, map, true, ◌+◌};
ghost use Rattle.bt_making.specs.Sources.{AreMade, AreRefused, pieces, source};
ghost use Rattle.bt_making.specs.declared.refusal.Refusal.TheVariants as refusal;
ghost use Rattle.bt_outlines.specs.Outlines.{below, blank_of, joined, no_pieces, optional_check_as, part_of};
ghost use Rattle.bt_outputs.specs.Numbers as spec;
ghost use Rattle.bt_outputs.specs.Numbers.{Next};
ghost use Rattle.bt_outputs.specs.declared.output.Output.TheVariants as output;
ghost use Rattle.bt_schema.specs.declared.forms.Language.TheVariants as language;
ghost use Rattle.bt_output_plan.specs.Drafts.{in_order};
ghost use Rattle.bt_output_plan.specs.Kinds as kinds;
ghost use Rattle.bt_output_plan.specs.Made.{blank_case, blanked, case_parts, in_case, parts};
ghost use Rattle.bt_output_plan.specs.Numbered.{case_numbers, next_of};
ghost use Rattle.bt_output_plan.specs.Reading as reads;
ghost use Rattle.bt_output_plan.specs.Reading.{met, reading};
ghost use Rattle.bt_output_plan.specs.Sinks.{place};

use crate::batching::{Batching, batching_at, is_on};
use crate::fields::{field, is_set_at, path, text_at, text_of, tries_at};
use crate::kinds::{Kind, chosen};
use crate::numbers::{Numbers, copies, hold, is_last, leaf, marked};
use crate::sinks::file_name;
use bt_making::{Refusal, make_pieces};
use bt_mappings::Pieces;
use bt_outlines::optional_check_at;
use bt_outputs::{Output, OutputCase, Outputs};
use bt_ports::NoMemory;
use bt_ports::text::Text;
use bt_ready::Ready;
use bt_schema::{nth, under};
use bt_value::{Members, Val, Vals};
use sqlite_items::{Boxed, Items};
use std::alloc::Global;

type Cases = Items<OutputCase<Output>>;

fn file(alloc: Global, v: &Val, names: &[Text], numbers: &mut Numbers) -> Result<Output, NoMemory>
    ensures form { IfOk result (λ o. blanked o ≡ output.Leaf 0 (place names.now (codes "file:" ++ (reading v.now).path))) }
    ensures texts { IfOk result (λ o. parts o ≡ []) }
    ensures numbered { IfOk result (λ o. spec.numbers (length names.now) o (next_of numbers.old) ≡ Some (next_of numbers.new)) }
    ensures holds { OnOk result (numbers.new.holds.list ≡ numbers.old.holds.list) }
{
    let name = file_name(alloc, path(v))?;
    leaf(names, name.as_str(), numbers)
}

#[tactic(auto, using(bt_making::proofs::Refusing::pieces_refused))]
fn pieces_of(alloc: Global, text: &str, at: &str) -> Result<Pieces, Refusal>
    ensures made { IfOk result (λ p. AreMade (source language.Interpolated text.now at.now ∷ []) (pieces p.list ∷ [])) }
    ensures refused { IfErr result (AreRefused (source language.Interpolated text.now at.now ∷ [])) }
{
    make_pieces(alloc, text, at)
}

fn rejecting(alloc: Global, text: &str, at: &str) -> Result<Output, Refusal>
    ensures form { IfOk result (λ o. blanked o ≡ output.Reject no_pieces) }
    ensures made { IfOk result (λ o. AreMade (source language.Interpolated text.now at.now ∷ []) (parts o)) }
    ensures refused { IfErr result (AreRefused (source language.Interpolated text.now at.now ∷ [])) }
    ensures numbered { IfOk result (λ o. (sinks : ℕ) (p : Next) → spec.numbers sinks o p ≡ Some p) }
{
    Ok(Output::Reject(pieces_of(alloc, text, at)?))
}

// The check of a batching, where there is one.
fn check_of(alloc: Global, text: &str, at: &str) -> Result<Option<Ready>, Refusal>
    ensures form { IfOk result (λ r. blank_of r ≡ (below (codes "batching") (below (codes "check") (optional_check_as text.now))).form) }
    ensures made { IfOk result (λ r. AreMade ((below (codes "batching") (below (codes "check") (optional_check_as text.now))).texts at.now) (part_of r)) }
    ensures refused { IfErr result (AreRefused ((below (codes "batching") (below (codes "check") (optional_check_as text.now))).texts at.now)) }
{
    let here = under(alloc, at, "batching")?;
    optional_check_at(alloc, text, "check", here.as_str())
}

fn boxed(alloc: Global, o: Output) -> Result<Boxed<Output>, NoMemory>
    ensures { IfOk result (λ b. b ≡ o) }
{
    Ok(Boxed::new(alloc, o)?)
}

// The outputs of a broker, with its batching round them, which is the last hold so far.
#[tactic(auto, using(crate::proofs::Numbering::held_so))]
fn held_round(
    alloc: Global,
    node: u32,
    check: Option<Ready>,
    list: Outputs,
    numbers: &Numbers,
) -> Result<Output, NoMemory>
    ensures form { IfOk result (λ o. blanked o ≡ output.Hold 0 (blank_of check) (output.Broker (map blanked list))) }
    ensures texts { IfOk result (λ o. parts o ≡ part_of check ++ joined (map parts list)) }
    ensures numbered { (sinks : ℕ) (p here : Next) → node ≡ p.hold → here.leaf ≡ p.leaf → here.hold ≡ p.hold + 1
        → spec.in_turn (map (spec.numbers sinks) list) here ≡ Some (next_of numbers.now)
        → IfOk result (λ o. spec.numbers sinks o p ≡ Some (next_of numbers.now)) }
{
    if !is_last(node, numbers) {
        return Err(NoMemory);
    }
    Ok(Output::Hold {
        node,
        check,
        child: boxed(alloc, Output::Broker(list))?,
    })
}

/// The output that a value is, whose leaves and holds are numbered behind those before it. Below a hold no broker has
/// a batching.
#[cycle(output)]
pub fn output(
    alloc: Global,
    v: &Val,
    at: &str,
    names: &[Text],
    held: bool,
    numbers: &mut Numbers,
) -> Result<Output, Refusal>
    ensures form { IfOk result (λ o. blanked o ≡ (((reading v.now).output).outline names.now held).form) }
    ensures made { IfOk result (λ o. AreMade ((((reading v.now).output).outline names.now held).texts at.now) (parts o)) }
    ensures refused { IfErr result (AreRefused ((((reading v.now).output).outline names.now held).texts at.now)) }
    ensures numbered { IfOk result (λ o. spec.numbers (length names.now) o (next_of numbers.old) ≡ Some (next_of numbers.new)) }
    ensures holds { OnOk result (numbers.new.holds.list ≡ numbers.old.holds.list ++ ((reading v.now).output).holds held) }
{
    match v {
        Val::Obj(fields) => component(alloc, fields, at, names, held, numbers),
        _ => Ok(Output::Drop),
    }
}

#[cycle(output)]
#[tactic(auto, using(crate::proofs::Finds::chosen_met))]
fn component(
    alloc: Global,
    fields: &Members,
    at: &str,
    names: &[Text],
    held: bool,
    numbers: &mut Numbers,
) -> Result<Output, Refusal>
    ensures form { IfOk result (λ o. blanked o ≡ ((reads.output_in (kinds.chosen (met fields.now))).outline names.now held).form) }
    ensures made { IfOk result (λ o. AreMade (((reads.output_in (kinds.chosen (met fields.now))).outline names.now held).texts at.now) (parts o)) }
    ensures refused { IfErr result (AreRefused (((reads.output_in (kinds.chosen (met fields.now))).outline names.now held).texts at.now)) }
    ensures numbered { IfOk result (λ o. spec.numbers (length names.now) o (next_of numbers.old) ≡ Some (next_of numbers.new)) }
    ensures holds { OnOk result (numbers.new.holds.list ≡ numbers.old.holds.list ++ (reads.output_in (kinds.chosen (met fields.now))).holds held) }
{
    match chosen(fields) {
        Some((kind, key, v)) => {
            let here = under(alloc, at, key)?;
            output_as(alloc, kind, v, here.as_str(), names, held, numbers)
        }
        None => Ok(Output::Drop),
    }
}

// The output of a kind whose value this is.
#[cycle(output)]
fn output_as(
    alloc: Global,
    kind: Kind,
    v: &Val,
    at: &str,
    names: &[Text],
    held: bool,
    numbers: &mut Numbers,
) -> Result<Output, Refusal>
    ensures form { IfOk result (λ o. blanked o ≡ ((reads.output_as kind (reading v.now)).outline names.now held).form) }
    ensures made { IfOk result (λ o. AreMade (((reads.output_as kind (reading v.now)).outline names.now held).texts at.now) (parts o)) }
    ensures refused { IfErr result (AreRefused (((reads.output_as kind (reading v.now)).outline names.now held).texts at.now)) }
    ensures numbered { IfOk result (λ o. spec.numbers (length names.now) o (next_of numbers.old) ≡ Some (next_of numbers.new)) }
    ensures holds { OnOk result (numbers.new.holds.list ≡ numbers.old.holds.list ++ (reads.output_as kind (reading v.now)).holds held) }
{
    match kind {
        Kind::Stdout => Ok(leaf(names, "stdout", numbers)?),
        Kind::File => Ok(file(alloc, v, names, numbers)?),
        Kind::Reject => rejecting(alloc, text_of(v), at),
        Kind::RejectErrored => {
            let child = output(alloc, v, at, names, held, numbers)?;
            Ok(Output::RejectErrored(boxed(alloc, child)?))
        }
        Kind::Fallback => fallback(alloc, v, at, names, held, numbers),
        Kind::Drop => Ok(Output::Drop),
        Kind::Broker => with_fields(alloc, Kind::Broker, v, at, names, held, numbers),
        Kind::Switch => with_fields(alloc, Kind::Switch, v, at, names, held, numbers),
        Kind::Retry => with_fields(alloc, Kind::Retry, v, at, names, held, numbers),
        Kind::DropOn => with_fields(alloc, Kind::DropOn, v, at, names, held, numbers),
    }
}

#[cycle(output)]
fn fallback(
    alloc: Global,
    v: &Val,
    at: &str,
    names: &[Text],
    held: bool,
    numbers: &mut Numbers,
) -> Result<Output, Refusal>
    ensures form { IfOk result (λ o. blanked o ≡ ((reads.drafted_fallback (reading v.now).outputs).outline names.now held).form) }
    ensures made { IfOk result (λ o. AreMade (((reads.drafted_fallback (reading v.now).outputs).outline names.now held).texts at.now) (parts o)) }
    ensures refused { IfErr result (AreRefused (((reads.drafted_fallback (reading v.now).outputs).outline names.now held).texts at.now)) }
    ensures numbered { IfOk result (λ o. spec.numbers (length names.now) o (next_of numbers.old) ≡ Some (next_of numbers.new)) }
    ensures holds { OnOk result (numbers.new.holds.list ≡ numbers.old.holds.list ++ (reads.drafted_fallback (reading v.now).outputs).holds held) }
{
    let children = outputs(alloc, v, at, names, held, numbers)?;
    if children.is_empty() {
        Ok(Output::Drop)
    } else {
        Ok(Output::Fallback(children))
    }
}

#[cycle(output)]
fn with_fields(
    alloc: Global,
    kind: Kind,
    v: &Val,
    at: &str,
    names: &[Text],
    held: bool,
    numbers: &mut Numbers,
) -> Result<Output, Refusal>
    ensures form { IfOk result (λ o. blanked o ≡ (((reading v.now).with_fields kind).outline names.now held).form) }
    ensures made { IfOk result (λ o. AreMade ((((reading v.now).with_fields kind).outline names.now held).texts at.now) (parts o)) }
    ensures refused { IfErr result (AreRefused ((((reading v.now).with_fields kind).outline names.now held).texts at.now)) }
    ensures numbered { IfOk result (λ o. spec.numbers (length names.now) o (next_of numbers.old) ≡ Some (next_of numbers.new)) }
    ensures holds { OnOk result (numbers.new.holds.list ≡ numbers.old.holds.list ++ ((reading v.now).with_fields kind).holds held) }
{
    match v {
        Val::Obj(fields) => output_in(alloc, kind, fields, at, names, held, numbers),
        _ => Ok(Output::Drop),
    }
}

// The output of a kind that has these fields.
#[cycle(output)]
fn output_in(
    alloc: Global,
    kind: Kind,
    fields: &Members,
    at: &str,
    names: &[Text],
    held: bool,
    numbers: &mut Numbers,
) -> Result<Output, Refusal>
    ensures form { IfOk result (λ o. blanked o ≡ ((reads.with_fields_in kind (met fields.now)).outline names.now held).form) }
    ensures made { IfOk result (λ o. AreMade (((reads.with_fields_in kind (met fields.now)).outline names.now held).texts at.now) (parts o)) }
    ensures refused { IfErr result (AreRefused (((reads.with_fields_in kind (met fields.now)).outline names.now held).texts at.now)) }
    ensures numbered { IfOk result (λ o. spec.numbers (length names.now) o (next_of numbers.old) ≡ Some (next_of numbers.new)) }
    ensures holds { OnOk result (numbers.new.holds.list ≡ numbers.old.holds.list ++ (reads.with_fields_in kind (met fields.now)).holds held) }
{
    match kind {
        Kind::Broker => broker(alloc, fields, at, names, held, numbers),
        Kind::Switch => {
            let list = cases_at(alloc, fields, at, names, held, numbers)?;
            Ok(Output::Switch {
                cases: list,
                strict: is_set_at(fields, "strict_mode"),
            })
        }
        Kind::Retry => retry(alloc, fields, at, names, held, numbers),
        Kind::DropOn => {
            let child = output_at(alloc, fields, at, names, held, numbers)?;
            Ok(Output::DropOn {
                error: is_set_at(fields, "error"),
                child: boxed(alloc, child)?,
            })
        }
        _ => Ok(Output::Drop),
    }
}

#[cycle(output)]
fn broker(
    alloc: Global,
    fields: &Members,
    at: &str,
    names: &[Text],
    held: bool,
    numbers: &mut Numbers,
) -> Result<Output, Refusal>
    ensures form { IfOk result (λ o. blanked o ≡ ((reads.broker_in (met fields.now)).outline names.now held).form) }
    ensures made { IfOk result (λ o. AreMade (((reads.broker_in (met fields.now)).outline names.now held).texts at.now) (parts o)) }
    ensures refused { IfErr result (AreRefused (((reads.broker_in (met fields.now)).outline names.now held).texts at.now)) }
    ensures numbered { IfOk result (λ o. spec.numbers (length names.now) o (next_of numbers.old) ≡ Some (next_of numbers.new)) }
    ensures holds { OnOk result (numbers.new.holds.list ≡ numbers.old.holds.list ++ (reads.broker_in (met fields.now)).holds held) }
{
    let batching = batching_at(fields);
    if is_on(&batching) && !held {
        held_broker(alloc, &batching, fields, at, names, numbers)
    } else {
        let list = outputs_at(alloc, fields, at, names, held, numbers)?;
        Ok(Output::Broker(list))
    }
}

// A broker whose batching is on.
#[cycle(output)]
fn held_broker(
    alloc: Global,
    batching: &Batching<'_>,
    fields: &Members,
    at: &str,
    names: &[Text],
    numbers: &mut Numbers,
) -> Result<Output, Refusal>
    ensures form { IfOk result (λ o. blanked o ≡ (reads.held_outline batching.now.check.now ((reads.outputs_at (codes "outputs") (met fields.now)).outline names.now true)).form) }
    ensures made { IfOk result (λ o. AreMade ((reads.held_outline batching.now.check.now ((reads.outputs_at (codes "outputs") (met fields.now)).outline names.now true)).texts at.now) (parts o)) }
    ensures refused { IfErr result (AreRefused ((reads.held_outline batching.now.check.now ((reads.outputs_at (codes "outputs") (met fields.now)).outline names.now true)).texts at.now)) }
    ensures numbered { IfOk result (λ o. spec.numbers (length names.now) o (next_of numbers.old) ≡ Some (next_of numbers.new)) }
    ensures holds { OnOk result (numbers.new.holds.list ≡ numbers.old.holds.list ++ batching.now.policy ∷ (reads.outputs_at (codes "outputs") (met fields.now)).holds true) }
{
    let check = check_of(alloc, batching.check, at)?;
    let node = hold(batching.policy, numbers)?;
    match outputs_at(alloc, fields, at, names, true, numbers) {
        Ok(list) => Ok(held_round(alloc, node, check, list, numbers)?),
        Err(refusal) => Err(refusal),
    }
}

#[cycle(output)]
fn retry(
    alloc: Global,
    fields: &Members,
    at: &str,
    names: &[Text],
    held: bool,
    numbers: &mut Numbers,
) -> Result<Output, Refusal>
    ensures form { IfOk result (λ o. blanked o ≡ ((reads.retry_in (met fields.now)).outline names.now held).form) }
    ensures made { IfOk result (λ o. AreMade (((reads.retry_in (met fields.now)).outline names.now held).texts at.now) (parts o)) }
    ensures refused { IfErr result (AreRefused (((reads.retry_in (met fields.now)).outline names.now held).texts at.now)) }
    ensures numbered { IfOk result (λ o. spec.numbers (length names.now) o (next_of numbers.old) ≡ Some (next_of numbers.new)) }
    ensures holds { OnOk result (numbers.new.holds.list ≡ numbers.old.holds.list ++ (reads.retry_in (met fields.now)).holds held) }
{
    let tries = tries_at(fields);
    let before = marked(numbers)?;
    let child = output_at(alloc, fields, at, names, held, numbers)?;
    Ok(copies(alloc, tries, before, child, numbers)?)
}

#[cycle(output)]
#[tactic(auto, using(crate::proofs::Finds::find_met))]
fn output_at(
    alloc: Global,
    fields: &Members,
    at: &str,
    names: &[Text],
    held: bool,
    numbers: &mut Numbers,
) -> Result<Output, Refusal>
    ensures form { IfOk result (λ o. blanked o ≡ ((reads.output_at (codes "output") (met fields.now)).outline names.now held).form) }
    ensures made { IfOk result (λ o. AreMade (((reads.output_at (codes "output") (met fields.now)).outline names.now held).texts at.now) (parts o)) }
    ensures refused { IfErr result (AreRefused (((reads.output_at (codes "output") (met fields.now)).outline names.now held).texts at.now)) }
    ensures numbered { IfOk result (λ o. spec.numbers (length names.now) o (next_of numbers.old) ≡ Some (next_of numbers.new)) }
    ensures holds { OnOk result (numbers.new.holds.list ≡ numbers.old.holds.list ++ (reads.output_at (codes "output") (met fields.now)).holds held) }
{
    match field(fields, "output") {
        Some(v) => {
            let here = under(alloc, at, "output")?;
            output(alloc, v, here.as_str(), names, held, numbers)
        }
        None => Ok(Output::Drop),
    }
}

#[cycle(output)]
#[tactic(auto, using(crate::proofs::Finds::find_met))]
fn outputs_at(
    alloc: Global,
    fields: &Members,
    at: &str,
    names: &[Text],
    held: bool,
    numbers: &mut Numbers,
) -> Result<Outputs, Refusal>
    ensures form { IfOk result (λ o. map blanked o ≡ ((reads.outputs_at (codes "outputs") (met fields.now)).outline names.now held).form) }
    ensures made { IfOk result (λ o. AreMade (((reads.outputs_at (codes "outputs") (met fields.now)).outline names.now held).texts at.now) (joined (map parts o))) }
    ensures refused { IfErr result (AreRefused (((reads.outputs_at (codes "outputs") (met fields.now)).outline names.now held).texts at.now)) }
    ensures numbered { IfOk result (λ o. spec.in_turn (map (spec.numbers (length names.now)) o) (next_of numbers.old) ≡ Some (next_of numbers.new)) }
    ensures holds { OnOk result (numbers.new.holds.list ≡ numbers.old.holds.list ++ (reads.outputs_at (codes "outputs") (met fields.now)).holds held) }
{
    match field(fields, "outputs") {
        Some(v) => {
            let here = under(alloc, at, "outputs")?;
            outputs(alloc, v, here.as_str(), names, held, numbers)
        }
        None => Ok(Items::new(alloc)),
    }
}

#[cycle(output)]
fn outputs(
    alloc: Global,
    v: &Val,
    at: &str,
    names: &[Text],
    held: bool,
    numbers: &mut Numbers,
) -> Result<Outputs, Refusal>
    ensures form { IfOk result (λ o. map blanked o ≡ (((reading v.now).outputs).outline names.now held).form) }
    ensures made { IfOk result (λ o. AreMade ((((reading v.now).outputs).outline names.now held).texts at.now) (joined (map parts o))) }
    ensures refused { IfErr result (AreRefused ((((reading v.now).outputs).outline names.now held).texts at.now)) }
    ensures numbered { IfOk result (λ o. spec.in_turn (map (spec.numbers (length names.now)) o) (next_of numbers.old) ≡ Some (next_of numbers.new)) }
    ensures holds { OnOk result (numbers.new.holds.list ≡ numbers.old.holds.list ++ ((reading v.now).outputs).holds held) }
{
    match v {
        Val::Arr(items) => each_output(alloc, items, at, names, held, numbers),
        _ => Ok(Items::new(alloc)),
    }
}

#[cycle(output)]
#[tactic(auto, using(bt_value::proofs::Depths::item_depth))]
fn each_output(
    alloc: Global,
    items: &Vals,
    at: &str,
    names: &[Text],
    held: bool,
    numbers: &mut Numbers,
) -> Result<Outputs, Refusal>
    ensures form { IfOk result (λ o. map blanked o ≡ ((in_order (λ r. r.output) (map reading items.now)).outline names.now held).form) }
    ensures made { IfOk result (λ o. AreMade (((in_order (λ r. r.output) (map reading items.now)).outline names.now held).texts at.now) (joined (map parts o))) }
    ensures refused { IfErr result (AreRefused (((in_order (λ r. r.output) (map reading items.now)).outline names.now held).texts at.now)) }
    ensures numbered { IfOk result (λ o. spec.in_turn (map (spec.numbers (length names.now)) o) (next_of numbers.old) ≡ Some (next_of numbers.new)) }
    ensures holds { OnOk result (numbers.new.holds.list ≡ numbers.old.holds.list ++ (in_order (λ r. r.output) (map reading items.now)).holds held) }
{
    let mut out = Items::new(alloc);
    for (i, item) in items.as_slice().iter().enumerate() {
        let here = nth(alloc, at, i)?;
        let o = output(alloc, item, here.as_str(), names, held, numbers)?;
        push_output(&mut out, o)?;
    }
    Ok(out)
}

fn push_output(out: &mut Outputs, o: Output) -> Result<(), NoMemory>
    ensures { OnOk result (out.new ≡ out.old ++ o ∷ []) }
{
    out.push(o)?;
    Ok(())
}

fn push_case(out: &mut Cases, k: OutputCase<Output>) -> Result<(), NoMemory>
    ensures { OnOk result (out.new ≡ out.old ++ k ∷ []) }
{
    out.push(k)?;
    Ok(())
}

#[cycle(output)]
#[tactic(auto, using(crate::proofs::Finds::find_met))]
fn cases_at(
    alloc: Global,
    fields: &Members,
    at: &str,
    names: &[Text],
    held: bool,
    numbers: &mut Numbers,
) -> Result<Cases, Refusal>
    ensures form { IfOk result (λ o. map blank_case (map (in_case blanked) o) ≡ ((reads.cases_at (codes "cases") (met fields.now)).outline names.now held).form) }
    ensures made { IfOk result (λ o. AreMade (((reads.cases_at (codes "cases") (met fields.now)).outline names.now held).texts at.now) (joined (map case_parts (map (in_case parts) o)))) }
    ensures refused { IfErr result (AreRefused (((reads.cases_at (codes "cases") (met fields.now)).outline names.now held).texts at.now)) }
    ensures numbered { IfOk result (λ o. spec.in_turn (case_numbers (length names.now) o) (next_of numbers.old) ≡ Some (next_of numbers.new)) }
    ensures holds { OnOk result (numbers.new.holds.list ≡ numbers.old.holds.list ++ (reads.cases_at (codes "cases") (met fields.now)).holds held) }
{
    match field(fields, "cases") {
        Some(v) => {
            let here = under(alloc, at, "cases")?;
            cases(alloc, v, here.as_str(), names, held, numbers)
        }
        None => Ok(Items::new(alloc)),
    }
}

#[cycle(output)]
fn cases(
    alloc: Global,
    v: &Val,
    at: &str,
    names: &[Text],
    held: bool,
    numbers: &mut Numbers,
) -> Result<Cases, Refusal>
    ensures form { IfOk result (λ o. map blank_case (map (in_case blanked) o) ≡ (((reading v.now).switch_cases).outline names.now held).form) }
    ensures made { IfOk result (λ o. AreMade ((((reading v.now).switch_cases).outline names.now held).texts at.now) (joined (map case_parts (map (in_case parts) o)))) }
    ensures refused { IfErr result (AreRefused ((((reading v.now).switch_cases).outline names.now held).texts at.now)) }
    ensures numbered { IfOk result (λ o. spec.in_turn (case_numbers (length names.now) o) (next_of numbers.old) ≡ Some (next_of numbers.new)) }
    ensures holds { OnOk result (numbers.new.holds.list ≡ numbers.old.holds.list ++ ((reading v.now).switch_cases).holds held) }
{
    match v {
        Val::Arr(items) => each_case(alloc, items, at, names, held, numbers),
        _ => Ok(Items::new(alloc)),
    }
}

#[cycle(output)]
#[tactic(auto, using(bt_value::proofs::Depths::item_depth))]
fn each_case(
    alloc: Global,
    items: &Vals,
    at: &str,
    names: &[Text],
    held: bool,
    numbers: &mut Numbers,
) -> Result<Cases, Refusal>
    ensures form { IfOk result (λ o. map blank_case (map (in_case blanked) o) ≡ ((in_order (λ r. r.switch_case) (map reading items.now)).outline names.now held).form) }
    ensures made { IfOk result (λ o. AreMade (((in_order (λ r. r.switch_case) (map reading items.now)).outline names.now held).texts at.now) (joined (map case_parts (map (in_case parts) o)))) }
    ensures refused { IfErr result (AreRefused (((in_order (λ r. r.switch_case) (map reading items.now)).outline names.now held).texts at.now)) }
    ensures numbered { IfOk result (λ o. spec.in_turn (case_numbers (length names.now) o) (next_of numbers.old) ≡ Some (next_of numbers.new)) }
    ensures holds { OnOk result (numbers.new.holds.list ≡ numbers.old.holds.list ++ (in_order (λ r. r.switch_case) (map reading items.now)).holds held) }
{
    let mut out = Items::new(alloc);
    for (i, item) in items.as_slice().iter().enumerate() {
        let here = nth(alloc, at, i)?;
        let k = switch_case(alloc, item, here.as_str(), names, held, numbers)?;
        push_case(&mut out, k)?;
    }
    Ok(out)
}

#[cycle(output)]
fn switch_case(
    alloc: Global,
    v: &Val,
    at: &str,
    names: &[Text],
    held: bool,
    numbers: &mut Numbers,
) -> Result<OutputCase<Output>, Refusal>
    ensures form { IfOk result (λ o. blank_case (in_case blanked o) ≡ (((reading v.now).switch_case).outline names.now held).form) }
    ensures made { IfOk result (λ o. AreMade ((((reading v.now).switch_case).outline names.now held).texts at.now) (case_parts (in_case parts o))) }
    ensures refused { IfErr result (AreRefused ((((reading v.now).switch_case).outline names.now held).texts at.now)) }
    ensures numbered { IfOk result (λ o. spec.numbers (length names.now) o.output (next_of numbers.old) ≡ Some (next_of numbers.new)) }
    ensures holds { OnOk result (numbers.new.holds.list ≡ numbers.old.holds.list ++ ((reading v.now).switch_case).holds held) }
{
    match v {
        Val::Obj(fields) => case_in(alloc, fields, at, names, held, numbers),
        _ => Ok(OutputCase {
            check: None,
            goes_on: false,
            output: Output::Drop,
        }),
    }
}

#[cycle(output)]
#[tactic(auto, using(bt_making::proofs::Along::made_along, bt_making::proofs::Along::refused_before, bt_making::proofs::Along::refused_behind))]
fn case_in(
    alloc: Global,
    fields: &Members,
    at: &str,
    names: &[Text],
    held: bool,
    numbers: &mut Numbers,
) -> Result<OutputCase<Output>, Refusal>
    ensures form { IfOk result (λ o. blank_case (in_case blanked o) ≡ ((reads.switch_case_in (met fields.now)).outline names.now held).form) }
    ensures made { IfOk result (λ o. AreMade (((reads.switch_case_in (met fields.now)).outline names.now held).texts at.now) (case_parts (in_case parts o))) }
    ensures refused { IfErr result (AreRefused (((reads.switch_case_in (met fields.now)).outline names.now held).texts at.now)) }
    ensures numbered { IfOk result (λ o. spec.numbers (length names.now) o.output (next_of numbers.old) ≡ Some (next_of numbers.new)) }
    ensures holds { OnOk result (numbers.new.holds.list ≡ numbers.old.holds.list ++ (reads.switch_case_in (met fields.now)).holds held) }
{
    let check = optional_check_at(alloc, text_at(fields, "check"), "check", at)?;
    let there = output_at(alloc, fields, at, names, held, numbers)?;
    Ok(OutputCase {
        check,
        goes_on: is_set_at(fields, "continue"),
        output: there,
    })
}
