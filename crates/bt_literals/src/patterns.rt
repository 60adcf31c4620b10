//! The patterns of a mapping, each built once.

ghost use Rattle.std.specs.Prelude.{◌≡◌, ◌++◌, [], ◌∷◌, IfOk, IfErr, OnOk};
ghost use Rattle.bt_literals.specs.Literals as spec;
ghost use Rattle.bt_literals.specs.Literals.{AllRead, IsRead, IsRefused};

use crate::found::mapping as find_in;
use bt_findings::{Finding, Findings};
use bt_patterns::{Pattern, PatternRefusal, Patterns};
use bt_ports::NoMemory;
use bt_tree::{Mapping, Word};
use std::alloc::Global;
use thiserror::Error;

/// Why the patterns of a mapping were not built.
#[derive(Clone, Copy, Debug, PartialEq, Eq, Error)]
pub enum PatternFault {
    /// A literal isn't read as a pattern, or nests too deeply.
    #[error("pattern at byte {at}")]
    Bad {
        /// Its place.
        at: usize,
    },
    /// Memory ran out, or a pattern's program is larger than is allowed.
    #[error("out of memory")]
    NoMemory,
}

fn push(patterns: &mut Patterns, pattern: Pattern) -> Result<(), PatternFault>
    ensures ok { OnOk result (patterns.new.list ≡ patterns.old.list ++ pattern ∷ []) }
    ensures err { IfErr result (λ e. e ≡ PatternFault.NoMemory) }
{
    match patterns.push(pattern) {
        Ok(()) => Ok(()),
        Err((NoMemory, _)) => Err(PatternFault::NoMemory),
    }
}

fn build_one(alloc: Global, patterns: &mut Patterns, word: &Word) -> Result<(), PatternFault>
    ensures ok { OnOk result (patterns.new.list ≡ patterns.old.list ++ word.now.text ∷ []) }
    ensures read { OnOk result (IsRead word.now) }
    ensures err { IfErr result (λ e. IsRefused (word.now ∷ []) e) }
{
    match Pattern::build(alloc, word.text.as_str()) {
        Ok(pattern) => push(patterns, pattern),
        Err(PatternRefusal::Bad) => Err(PatternFault::Bad { at: word.at }),
        Err(PatternRefusal::NoMemory) => Err(PatternFault::NoMemory),
    }
}

fn build_all(
    alloc: Global,
    patterns: &mut Patterns,
    findings: &[Finding],
) -> Result<(), PatternFault>
    ensures ok { OnOk result (patterns.new.list
        ≡ patterns.old.list ++ spec.texts (spec.patterns_among findings.now)) }
    ensures read { OnOk result (AllRead (spec.patterns_among findings.now)) }
    ensures err { IfErr result (λ e. IsRefused (spec.patterns_among findings.now) e) }
{
    for finding in findings {
        if let Finding::Pattern(word) = finding {
            build_one(alloc, patterns, word)?;
        }
    }
    Ok(())
}

/// Builds each pattern of a mapping, in order of the text.
///
/// `Bad` tells the place of the first literal that isn't read as a pattern. The text of a pattern finds
/// it again, by `found` of `bt_patterns`.
pub fn build_patterns(alloc: Global, mapping: &Mapping) -> Result<Patterns, PatternFault>
    ensures built { IfOk result (λ ps. ps.list ≡ spec.texts (spec.patterns mapping.now)) }
    ensures read { IfOk result (λ ps. AllRead (spec.patterns mapping.now)) }
    ensures refused { IfErr result (λ e. IsRefused (spec.patterns mapping.now) e) }
{
    let mut findings = Findings::new(alloc);
    let Ok(()) = find_in(alloc, &mut findings, mapping) else {
        return Err(PatternFault::NoMemory);
    };
    let mut patterns = Patterns::new(alloc);
    build_all(alloc, &mut patterns, findings.as_slice())?;
    Ok(patterns)
}
