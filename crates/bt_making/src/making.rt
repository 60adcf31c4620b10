//! Texts that are one mapping or one query.
ghost use Rattle.std.specs.Prelude.{◌≡◌, codes, IfOk, IfErr};
ghost use Rattle.bt_mapping_text.specs.Faults.{printed, words_of};
ghost use Rattle.bt_syntax.specs.Grammar.{ReadsCheck, ReadsMapping};
ghost use Rattle.bt_making.specs.Made as spec;
ghost use Rattle.bt_making.specs.Made.{IsBad, IsBuilt, IsReady, IsRefusal, IsUnready};

use crate::refusal::{Refusal, lint};
use bt_literals::{PatternFault, ready};
use bt_mapping_text::{TextFault, Unread, print_at, print_fault, read_check, read_mapping};
use bt_ports::NoMemory;
use bt_ready::Ready;
use bt_schema::Lint;
use bt_tree::Mapping;
use std::alloc::Global;

/// The mapping of a text that stands at a place of the configuration, made ready to run.
#[tactic(auto, using(crate::proofs::Building::ready_so, crate::proofs::Building::unready_so))]
pub fn make_mapping(alloc: Global, text: &str, at: &str) -> Result<Ready, Refusal>
    ensures made { IfOk result (IsReady ReadsMapping text.now) }
    ensures refused { IfErr result (IsRefusal (IsUnready ReadsMapping text.now) at.now) }
{
    match read_mapping(alloc, text) {
        Ok(mapping) => built(alloc, mapping, text, at),
        Err(Unread::Fault(fault)) => Err(Refusal::Lint(fault_lint(alloc, &fault, text, at)?)),
        Err(Unread::NoMemory) => Err(Refusal::NoMemory),
    }
}

/// The query of a text that stands at a place of the configuration, as a mapping of its own, made
/// ready to run.
#[tactic(auto, using(crate::proofs::Building::ready_so, crate::proofs::Building::unready_so))]
pub fn make_check(alloc: Global, text: &str, at: &str) -> Result<Ready, Refusal>
    ensures made { IfOk result (IsReady ReadsCheck text.now) }
    ensures refused { IfErr result (IsRefusal (IsUnready ReadsCheck text.now) at.now) }
{
    match read_check(alloc, text) {
        Ok(mapping) => built(alloc, mapping, text, at),
        Err(Unread::Fault(fault)) => Err(Refusal::Lint(fault_lint(alloc, &fault, text, at)?)),
        Err(Unread::NoMemory) => Err(Refusal::NoMemory),
    }
}

// A mapping with its patterns, or the lint of the first that is refused.
fn built(alloc: Global, mapping: Mapping, text: &str, at: &str) -> Result<Ready, Refusal>
    ensures built { IfOk result (IsBuilt mapping) }
    ensures refused { IfErr result (IsRefusal (IsBad text.now mapping) at.now) }
{
    match ready(alloc, mapping) {
        Ok(made) => Ok(made),
        Err((PatternFault::Bad { at: place }, _)) => {
            Err(Refusal::Lint(pattern_lint(alloc, place, text, at)?))
        }
        Err((PatternFault::NoMemory, _)) => Err(Refusal::NoMemory),
    }
}

fn fault_lint(alloc: Global, fault: &TextFault, text: &str, at: &str) -> Result<Lint, NoMemory>
    ensures { IfOk result (λ l. l ≡ spec.lint at.now (printed (words_of fault.now.kind) text.now fault.now.at)) }
{
    let words = print_fault(alloc, text, fault)?;
    lint(alloc, at, words)
}

fn pattern_lint(alloc: Global, place: usize, text: &str, at: &str) -> Result<Lint, NoMemory>
    ensures { IfOk result (λ l. l ≡ spec.lint at.now (printed (codes "pattern") text.now place)) }
{
    let words = print_at(alloc, "pattern", text, place)?;
    lint(alloc, at, words)
}
