//! The lints of a configuration.
ghost use Rattle.std.specs.Prelude.{◌≡◌, ◌++◌, ◌∷◌, [], IfOk, OnOk, List, map};
ghost use Rattle.bt_schema.specs.declared.lints.Lint.{Lint};
ghost use Rattle.bt_schema.specs.declared.lints.LintKind.TheVariants as kind;
ghost use Rattle.bt_config.specs.Violations as spec;
ghost use Rattle.bt_config.specs.Violations.{AreLints, AreLintsOf, AreViolations};
ghost use Rattle.bt_text_lints.specs.Verdicts.{kinds_of};
ghost use Rattle.bt_walk.specs.Found.{fact_of, located};

use crate::reading::Config;
use bt_ports::NoMemory;
use bt_ports::text::Text;
use bt_schema::{Lint, LintKind, Lints};
use bt_text_lints::{Verdict, verdict_of};
use bt_walk::{Finding, Found, find_all};
use std::alloc::Global;

/// The lints of a configuration, in their order: an object before its members, members in byte
/// order of their keys, elements in order, and at one pointer by number.
pub fn lint_config(alloc: Global, config: &Config) -> Result<Lints, NoMemory>
    ensures { IfOk result (AreViolations config.now.doc) }
{
    let found = find_all(alloc, &config.doc)?;
    lints_of(alloc, found.into_vec())
}

fn lints_of(alloc: Global, found: Vec<Finding<'_>>) -> Result<Lints, NoMemory>
    ensures { IfOk result (AreLints (map located found.entry.items)) }
{
    let mut lints = Lints::new(alloc);
    for finding in found {
        push_finding(alloc, finding, &mut lints)?;
    }
    Ok(lints)
}

fn push_finding(alloc: Global, finding: Finding<'_>, lints: &mut Lints) -> Result<(), NoMemory>
    ensures { OnOk result ((own : List Lint)
        × AreLintsOf finding.entry.pointer (fact_of finding.entry.found) own
        × (lints.new ≡ lints.old ++ own)) }
{
    let Finding { pointer, found } = finding;
    match found {
        Found::Wrong(kind) => push(lints, Lint { pointer, kind }),
        Found::Text(language, text) => {
            let verdict = verdict_of(alloc, language, text)?;
            push_verdict(alloc, pointer.as_str(), &verdict, lints)
        }
    }
}

fn push(lints: &mut Lints, lint: Lint) -> Result<(), NoMemory>
    ensures { OnOk result (lints.new ≡ lints.old ++ lint ∷ []) }
{
    match lints.push(lint) {
        Ok(()) => Ok(()),
        Err(_) => Err(NoMemory),
    }
}

fn push_verdict(
    alloc: Global,
    at: &str,
    verdict: &Verdict,
    lints: &mut Lints,
) -> Result<(), NoMemory>
    ensures { OnOk result (lints.new ≡ lints.old ++ map (spec.lint_at at.now) (kinds_of verdict.now)) }
{
    push_faults(alloc, at, verdict.faults.as_slice(), lints)?;
    push_lints(alloc, at, verdict.lints.as_slice(), lints)
}

fn push_faults(alloc: Global, at: &str, texts: &[Text], lints: &mut Lints) -> Result<(), NoMemory>
    ensures { OnOk result (lints.new ≡ lints.old ++ map (spec.lint_at at.now) (map kind.Fault texts.now)) }
{
    for text in texts {
        let pointer = Text::make(alloc, at)?;
        let text = Text::make(alloc, text.as_str())?;
        push(
            lints,
            Lint {
                pointer,
                kind: LintKind::Fault(text),
            },
        )?;
    }
    Ok(())
}

fn push_lints(alloc: Global, at: &str, texts: &[Text], lints: &mut Lints) -> Result<(), NoMemory>
    ensures { OnOk result (lints.new ≡ lints.old ++ map (spec.lint_at at.now) (map kind.MappingLint texts.now)) }
{
    for text in texts {
        let pointer = Text::make(alloc, at)?;
        let text = Text::make(alloc, text.as_str())?;
        push(
            lints,
            Lint {
                pointer,
                kind: LintKind::MappingLint(text),
            },
        )?;
    }
    Ok(())
}
