//! Checks that stand at fields.
ghost use Rattle.std.specs.Prelude.{◌≡◌, ◌∷◌, [], IfErr, IfOk};
ghost use Rattle.bt_making.specs.Sources.{AreMade, AreRefused, mapping};
ghost use Rattle.bt_outlines.specs.Outlines.{below, blank_of, check_as, optional_check_as, part_of};

use bt_making::{Refusal, make_check};
use bt_ready::Ready;
use bt_schema::under;
use std::alloc::Global;

/// The check with this text at the member `key` of what stands at `at`.
pub fn check_at(alloc: Global, text: &str, key: &str, at: &str) -> Result<Ready, Refusal>
    ensures made { IfOk result (λ r. AreMade ((below key.now (check_as text.now)).texts at.now) (mapping r ∷ [])) }
    ensures refused { IfErr result (AreRefused ((below key.now (check_as text.now)).texts at.now)) }
{
    let here = under(alloc, at, key)?;
    check(alloc, text, here.as_str())
}

#[tactic(auto, using(bt_making::proofs::Refusing::check_refused))]
fn check(alloc: Global, text: &str, at: &str) -> Result<Ready, Refusal>
    ensures made { IfOk result (λ r. AreMade ((check_as text.now).texts at.now) (mapping r ∷ [])) }
    ensures refused { IfErr result (AreRefused ((check_as text.now).texts at.now)) }
{
    make_check(alloc, text, at)
}

/// The same, and none where the text is empty.
pub fn optional_check_at(
    alloc: Global,
    text: &str,
    key: &str,
    at: &str,
) -> Result<Option<Ready>, Refusal>
    ensures form { IfOk result (λ r. blank_of r ≡ (below key.now (optional_check_as text.now)).form) }
    ensures made { IfOk result (λ r. AreMade ((below key.now (optional_check_as text.now)).texts at.now) (part_of r)) }
    ensures refused { IfErr result (AreRefused ((below key.now (optional_check_as text.now)).texts at.now)) }
{
    let here = under(alloc, at, key)?;
    optional_check(alloc, text, here.as_str())
}

#[tactic(auto, using(bt_making::proofs::Refusing::check_refused))]
fn optional_check(alloc: Global, text: &str, at: &str) -> Result<Option<Ready>, Refusal>
    ensures form { IfOk result (λ r. blank_of r ≡ (optional_check_as text.now).form) }
    ensures made { IfOk result (λ r. AreMade ((optional_check_as text.now).texts at.now) (part_of r)) }
    ensures refused { IfErr result (AreRefused ((optional_check_as text.now).texts at.now)) }
{
    if text.is_empty() {
        return Ok(None);
    }
    Ok(Some(make_check(alloc, text, at)?))
}
