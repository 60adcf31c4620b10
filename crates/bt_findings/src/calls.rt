//! What is found at the name of a call.

ghost use Rattle.std.specs.Prelude.{◌≡◌, ◌++◌, [], ◌∷◌, map, OnOk, IfOk};
ghost use Rattle.bt_calls.specs.Shapes.{shape};
ghost use Rattle.bt_findings.specs.Found as spec;
ghost use Rattle.bt_findings.specs.declared.finding.Finding.{Finding};

use crate::finding::{Finding, Findings};
use bt_calls::{Signature, Slot, fits, function_takes, literal, method_takes};
use bt_ports::NoMemory;
use bt_ports::text::Text;
use bt_tree::{Arg, Query, Word};
use bt_value::{function_of, method_of};
use std::alloc::Global;

/// Puts a finding at the end.
pub fn push(out: &mut Findings, finding: Finding) -> Result<(), NoMemory>
    ensures { OnOk result (out.new.list ≡ out.old.list ++ finding ∷ []) }
{
    match out.push(finding) {
        Ok(()) => Ok(()),
        Err((NoMemory, _)) => Err(NoMemory),
    }
}

/// A name with a place.
pub fn word(alloc: Global, at: usize, text: &Text) -> Result<Word, NoMemory>
    ensures { IfOk result (λ w. w ≡ record { at = at; text = text.now }) }
{
    Ok(Word {
        at,
        text: Text::make(alloc, text.as_str())?,
    })
}

/// What a literal in the first place names.
fn literal_named(
    alloc: Global,
    slot: Slot,
    at: usize,
    found: &Word,
) -> Result<Option<Finding>, NoMemory>
    ensures { IfOk result (λ o. spec.named_by slot at found.now ≡ o) }
{
    match slot {
        Slot::Map => Ok(Some(Finding::Apply(word(alloc, at, &found.text)?))),
        Slot::Pattern => Ok(Some(Finding::Pattern(word(alloc, found.at, &found.text)?))),
        _ => Ok(None),
    }
}

/// What the first argument names.
fn named(
    alloc: Global,
    out: &mut Findings,
    slot: Slot,
    at: usize,
    args: &[Arg<Query>],
) -> Result<(), NoMemory>
    ensures { OnOk result (out.new.list ≡ out.old.list ++ spec.named slot at (map shape args.now)) }
{
    let Some(first) = args.first() else {
        return Ok(());
    };
    let Some(found) = literal(first) else {
        return Ok(());
    };
    match literal_named(alloc, slot, at, found)? {
        Some(finding) => push(out, finding),
        None => Ok(()),
    }
}

/// What is found where a call takes arguments.
fn by_signature(
    alloc: Global,
    out: &mut Findings,
    signature: Signature,
    at: usize,
    args: &[Arg<Query>],
) -> Result<(), NoMemory>
    ensures { OnOk result (out.new.list ≡ out.old.list ++ spec.by_signature signature at (map shape args.now)) }
{
    if fits(signature, args) {
        named(alloc, out, signature.first, at, args)
    } else {
        push(out, Finding::WrongArguments(at))
    }
}

/// What is found at the name of a function.
#[tactic(auto, unfolding(crate::specs::Found::function_call))]
pub fn function_call(
    alloc: Global,
    out: &mut Findings,
    name: &Word,
    args: &[Arg<Query>],
) -> Result<(), NoMemory>
    ensures { OnOk result (out.new.list ≡ out.old.list ++ spec.function_call name.now (map shape args.now)) }
{
    match function_of(name.text.as_str()) {
        Some(id) => by_signature(alloc, out, function_takes(id), name.at, args),
        None => push(out, Finding::UnknownFunction(name.at)),
    }
}

/// What is found at the name of a method.
#[tactic(auto, unfolding(crate::specs::Found::method_call))]
pub fn method_call(
    alloc: Global,
    out: &mut Findings,
    name: &Word,
    args: &[Arg<Query>],
) -> Result<(), NoMemory>
    ensures { OnOk result (out.new.list ≡ out.old.list ++ spec.method_call name.now (map shape args.now)) }
{
    match method_of(name.text.as_str()) {
        Some(id) => by_signature(alloc, out, method_takes(id), name.at, args),
        None => push(out, Finding::UnknownMethod(name.at)),
    }
}
