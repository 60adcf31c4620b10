//! Texts that are one mapping or one query.
ghost use Rattle.std.specs.Prelude.{◌≡◌, IfOk, OnOk, ◌++◌, ◌∷◌, [], map, List};
ghost use Rattle.bt_lints.specs.declared.lint.MapLint.{MapLint};
ghost use Rattle.bt_mapping_text.specs.Faults.{printed, words_of};
ghost use Rattle.bt_syntax.specs.Grammar.{ReadsCheck, ReadsMapping};
ghost use Rattle.bt_text_lints.specs.Verdicts as spec;
ghost use Rattle.bt_text_lints.specs.Verdicts.{HasLints, IsJudged, IsVerdict};

use crate::interpolated::interpolated;
use crate::verdict::Verdict;
use bt_lints::{MapLint, Use, lint_mapping};
use bt_mapping_text::{TextFault, Unread, print_at, print_fault, read_check, read_mapping};
use bt_ports::NoMemory;
use bt_ports::text::Text;
use bt_schema::Language;
use bt_tree::Mapping;
use sqlite_items::Items;
use std::alloc::Global;

/// What is wrong with a text in a language. A text that isn't read has its first fault, and one that
/// is read has its lints; an interpolated text has those of all its queries.
pub fn verdict_of(alloc: Global, language: Language, text: &str) -> Result<Verdict, NoMemory>
    ensures { IfOk result (IsVerdict language text.now) }
{
    match language {
        Language::Mapping => mapping_verdict(alloc, text),
        Language::Check => check_verdict(alloc, text),
        Language::Interpolated => interpolated(alloc, text),
    }
}

fn mapping_verdict(alloc: Global, text: &str) -> Result<Verdict, NoMemory>
    ensures { IfOk result (IsJudged ReadsMapping Use.Mapping text.now) }
{
    match read_mapping(alloc, text) {
        Ok(mapping) => linted(alloc, &mapping, Use::Mapping, text),
        Err(Unread::Fault(fault)) => faulty(alloc, text, &fault),
        Err(Unread::NoMemory) => Err(NoMemory),
    }
}

/// What is wrong with a text that is one query.
pub fn check_verdict(alloc: Global, text: &str) -> Result<Verdict, NoMemory>
    ensures { IfOk result (IsJudged ReadsCheck Use.Check text.now) }
{
    match read_check(alloc, text) {
        Ok(mapping) => linted(alloc, &mapping, Use::Check, text),
        Err(Unread::Fault(fault)) => faulty(alloc, text, &fault),
        Err(Unread::NoMemory) => Err(NoMemory),
    }
}

fn faulty(alloc: Global, text: &str, fault: &TextFault) -> Result<Verdict, NoMemory>
    ensures { IfOk result (λ v. v ≡ record { faults = printed (words_of fault.now.kind) text.now fault.now.at ∷ []; lints = [] }) }
{
    let mut faults = Items::new(alloc);
    push(&mut faults, print_fault(alloc, text, fault)?)?;
    Ok(Verdict {
        faults,
        lints: Items::new(alloc),
    })
}

fn linted(alloc: Global, mapping: &Mapping, how: Use, text: &str) -> Result<Verdict, NoMemory>
    ensures { IfOk result (λ v. (ls : List MapLint) × HasLints mapping.now how ls × (v ≡ record { faults = []; lints = map (spec.printed_lint text.now) ls })) }
{
    let found = lint_mapping(alloc, mapping, how)?;
    let lints = printed_lints(alloc, text, found.as_slice())?;
    Ok(Verdict {
        faults: Items::new(alloc),
        lints,
    })
}

fn printed_lints(alloc: Global, text: &str, found: &[MapLint]) -> Result<Items<Text>, NoMemory>
    ensures { IfOk result (λ ts. ts ≡ map (spec.printed_lint text.now) found.now) }
{
    let mut lints = Items::new(alloc);
    for lint in found {
        let line = print_at(alloc, lint.kind.text(), text, lint.at)?;
        push(&mut lints, line)?;
    }
    Ok(lints)
}

fn push(texts: &mut Items<Text>, text: Text) -> Result<(), NoMemory>
    ensures { OnOk result (texts.new ≡ texts.old ++ text ∷ []) }
{
    match texts.push(text) {
        Ok(()) => Ok(()),
        Err(_) => Err(NoMemory),
    }
}
