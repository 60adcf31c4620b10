//! What tests expect.
ghost use Rattle.std.specs.Prelude.{◌≡◌, ◌++◌, ◌∷◌, [], IfErr, IfOk, OnOk};
ghost use Rattle.bt_expectations.specs.Conditions.{name_of};
ghost use Rattle.bt_schema.specs.Pointer.{under};
ghost use Rattle.bt_units.specs.Expected as spec;
ghost use Rattle.bt_units.specs.Expected.{AreExpected, AreExpectedBatches, AreMade, Each, IsExpectedBatch, IsLintOf, IsOfBatch, IsOfBatches, IsOfMember, IsOfMembers, IsOfMessage, IsOfSome, IsRefusedBy, Puts};
ghost use Rattle.bt_units.specs.Fields as fields;
ghost use Rattle.bt_value.specs.Keys.{find};

use crate::conditions::expectation;
use crate::fields::{elements, output_batches};
use bt_expectations::{
    Condition, Expectation, Expectations, ExpectedBatch, ExpectedBatches, name_of,
};
use bt_making::Refusal;
use bt_ports::NoMemory;
use bt_schema::{nth, under};
use bt_value::{Members, Val};
use sqlite_items::Items;
use std::alloc::Global;

/// The conditions, in byte order of their names.
const CONDITIONS: [Condition; 6] = [
    Condition::Bloblang,
    Condition::ContentEquals,
    Condition::ContentMatches,
    Condition::JsonContains,
    Condition::JsonEquals,
    Condition::MetadataEquals,
];

/// What a test that stands at a pointer expects of the batches that come.
pub(crate) fn expected_of(alloc: Global, test: &Val, at: &str) -> Result<ExpectedBatches, Refusal>
    ensures made { IfOk result (AreExpectedBatches test.now) }
    ensures refused { IfErr result (IsRefusedBy (IsOfBatches at.now test.now)) }
{
    let here = under(alloc, at, "output_batches")?;
    batches(alloc, output_batches(test), here.as_str())
}

fn batches(alloc: Global, list: &[Val], at: &str) -> Result<ExpectedBatches, Refusal>
    ensures made { IfOk result (Each IsExpectedBatch list.now) }
    ensures refused { IfErr result (IsRefusedBy (IsOfSome IsOfBatch at.now list.now)) }
{
    let mut out = Items::new(alloc);
    for (i, v) in list.iter().enumerate() {
        let here = nth(alloc, at, i)?;
        let batch = expected_batch(alloc, v, here.as_str())?;
        push_batch(&mut out, batch)?;
    }
    Ok(out)
}

fn push_batch(out: &mut ExpectedBatches, batch: ExpectedBatch) -> Result<(), NoMemory>
    ensures { OnOk result (out.new ≡ out.old ++ batch ∷ []) }
{
    match out.push(batch) {
        Ok(()) => Ok(()),
        Err(_) => Err(NoMemory),
    }
}

fn expected_batch(alloc: Global, v: &Val, at: &str) -> Result<ExpectedBatch, Refusal>
    ensures made { IfOk result (IsExpectedBatch v.now) }
    ensures refused { IfErr result (IsRefusedBy (IsOfBatch at.now v.now)) }
{
    messages(alloc, elements(v), at)
}

fn messages(alloc: Global, list: &[Val], at: &str) -> Result<ExpectedBatch, Refusal>
    ensures made { IfOk result (Each AreExpected list.now) }
    ensures refused { IfErr result (IsRefusedBy (IsOfSome IsOfMessage at.now list.now)) }
{
    let mut out = Items::new(alloc);
    for (i, v) in list.iter().enumerate() {
        let here = nth(alloc, at, i)?;
        let message = expectations(alloc, v, here.as_str())?;
        push_message(&mut out, message)?;
    }
    Ok(out)
}

fn push_message(out: &mut ExpectedBatch, message: Expectations) -> Result<(), NoMemory>
    ensures { OnOk result (out.new ≡ out.old ++ message ∷ []) }
{
    match out.push(message) {
        Ok(()) => Ok(()),
        Err(_) => Err(NoMemory),
    }
}

fn expectations(alloc: Global, v: &Val, at: &str) -> Result<Expectations, Refusal>
    ensures made { IfOk result (AreExpected v.now) }
    ensures refused { IfErr result (IsRefusedBy (IsOfMessage at.now v.now)) }
{
    match v {
        Val::Obj(members) => named_in(alloc, &CONDITIONS, members, at),
        _ => Ok(Items::new(alloc)),
    }
}

// Those of the conditions that members name, made ready.
fn named_in(
    alloc: Global,
    conditions: &[Condition],
    members: &Members,
    at: &str,
) -> Result<Expectations, Refusal>
    ensures made { IfOk result (AreMade (spec.named_in members.now conditions.now)) }
    ensures refused { IfErr result (IsRefusedBy (IsOfMembers at.now members.now)) }
{
    let mut out = Items::new(alloc);
    for condition in conditions {
        push_named(alloc, *condition, members, at, &mut out)?;
    }
    Ok(out)
}

// Puts the condition at the end, if a member names it.
#[tactic(auto, using(crate::proofs::Listing::put_found, crate::proofs::Listing::put_none, crate::proofs::Listing::of_found))]
fn push_named(
    alloc: Global,
    condition: Condition,
    members: &Members,
    at: &str,
    out: &mut Expectations,
) -> Result<(), Refusal>
    ensures made { OnOk result (Puts (spec.if_there condition (find (name_of condition) members.now)) out.old out.new) }
    ensures refused { IfErr result (IsRefusedBy (IsOfMember at.now condition members.now)) }
{
    match members.find(name_of(condition)) {
        Some(v) => push_made(alloc, condition, v, at, out),
        None => Ok(()),
    }
}

// Puts the condition with this value at the end. The conditions stand in an object at a pointer.
#[tactic(auto, using(crate::proofs::Listing::put_one))]
fn push_made(
    alloc: Global,
    condition: Condition,
    v: &Val,
    at: &str,
    out: &mut Expectations,
) -> Result<(), Refusal>
    ensures made { OnOk result (Puts ((condition, v.now) ∷ []) out.old out.new) }
    ensures refused { IfErr result (IsRefusedBy (IsLintOf (under at.now (name_of condition)) condition v.now)) }
{
    let here = under(alloc, at, name_of(condition))?;
    let made = expectation(alloc, condition, v, here.as_str())?;
    push(out, made)?;
    Ok(())
}

fn push(out: &mut Expectations, made: Expectation) -> Result<(), NoMemory>
    ensures { OnOk result (out.new ≡ out.old ++ made ∷ []) }
{
    match out.push(made) {
        Ok(()) => Ok(()),
        Err(_) => Err(NoMemory),
    }
}
