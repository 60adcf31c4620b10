//! Conditions made ready.
ghost use Rattle.std.specs.Prelude.{◌≡◌, ◌∷◌, IfErr, IfOk, None, codes, is_some, true};
ghost use Rattle.bt_making.specs.Made.{lint};
ghost use Rattle.bt_patterns.specs.Patterns.{pattern_of_text};
ghost use Rattle.bt_units.specs.Expected.{IsLintOf, IsMade, IsRefusedBy};
ghost use Rattle.bt_expectations.specs.declared.condition.Condition.TheVariants as condition;
ghost use Rattle.bt_schema.specs.declared.lints.Lint.{Lint};

use crate::fields::string;
use crate::input::members_copied;
use bt_expectations::{Condition, Expectation};
use bt_making::{Refusal, make_check};
use bt_patterns::{Pattern, PatternRefusal};
use bt_ports::NoMemory;
use bt_ports::text::Text;
use bt_ready::Ready;
use bt_schema::{Lint, LintKind};
use bt_value::{Val, copy};
use std::alloc::Global;

/// A condition with what the value at a pointer says of it, made ready.
pub(crate) fn expectation(
    alloc: Global,
    condition: Condition,
    v: &Val,
    at: &str,
) -> Result<Expectation, Refusal>
    ensures made { IfOk result (IsMade condition v.now) }
    ensures refused { IfErr result (IsRefusedBy (IsLintOf at.now condition v.now)) }
{
    match condition {
        Condition::Bloblang => Ok(Expectation::Bloblang(check_of(alloc, v, at)?)),
        Condition::ContentEquals => Ok(Expectation::ContentEquals(text_of(alloc, v)?)),
        Condition::ContentMatches => Ok(Expectation::ContentMatches(pattern_of(alloc, v, at)?)),
        Condition::JsonContains => Ok(Expectation::JsonContains(copy(alloc, v)?)),
        Condition::JsonEquals => Ok(Expectation::JsonEquals(copy(alloc, v)?)),
        Condition::MetadataEquals => Ok(Expectation::MetadataEquals(members_copied(alloc, v)?)),
    }
}

fn text_of(alloc: Global, v: &Val) -> Result<Text, NoMemory>
    ensures { IfOk result (λ t. IsMade condition.ContentEquals v.now (Expectation.ContentEquals t)) }
{
    Text::make(alloc, string(v))
}

#[tactic(auto, using(crate::proofs::Faults::check_refused))]
fn check_of(alloc: Global, v: &Val, at: &str) -> Result<Ready, Refusal>
    ensures made { IfOk result (λ r. IsMade condition.Bloblang v.now (Expectation.Bloblang r)) }
    ensures refused { IfErr result (IsRefusedBy (IsLintOf at.now condition.Bloblang v.now)) }
{
    make_check(alloc, string(v), at)
}

#[tactic(auto, using(crate::proofs::Faults::pattern_refused))]
fn pattern_of(alloc: Global, v: &Val, at: &str) -> Result<Pattern, Refusal>
    ensures made { IfOk result (λ p. IsMade condition.ContentMatches v.now (Expectation.ContentMatches p)) }
    ensures refused { IfErr result (IsRefusedBy (IsLintOf at.now condition.ContentMatches v.now)) }
{
    match Pattern::build(alloc, string(v)) {
        Ok(pattern) => Ok(pattern),
        Err(PatternRefusal::Bad) => Err(Refusal::Lint(pattern_lint(alloc, at)?)),
        Err(PatternRefusal::NoMemory) => Err(Refusal::NoMemory),
    }
}

// The lint of a text that is a pattern, and is refused.
fn pattern_lint(alloc: Global, at: &str) -> Result<Lint, NoMemory>
    ensures { IfOk result (λ l. l ≡ lint at.now (codes "pattern at line 1 column 1")) }
{
    let pointer = Text::make(alloc, at)?;
    let words = Text::make(alloc, "pattern at line 1 column 1")?;
    Ok(Lint {
        pointer,
        kind: LintKind::Fault(words),
    })
}
