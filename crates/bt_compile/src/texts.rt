//! The texts of fields, made ready.
ghost use Rattle.std.specs.Prelude.{◌≡◌, IfErr, IfOk};
ghost use Rattle.bt_schema.specs.declared.forms.Language.TheVariants as language;
ghost use Rattle.bt_making.specs.Sources.{AreMade, AreRefused};
ghost use Rattle.bt_compile.specs.Made.{blank_of, part_of};
ghost use Rattle.bt_compile.specs.Outlines.{optional_as};
ghost use Rattle.bt_compile.specs.Reading.{met, optional_at};

use crate::fields::text_at;
use bt_making::{Refusal, make_check, make_mapping};
use bt_ready::Ready;
use bt_schema::under;
use bt_value::Members;
use std::alloc::Global;

/// The check of the key, and none where it is absent or the empty text.
pub fn optional_check_at(
    alloc: Global,
    fields: &Members,
    key: &str,
    at: &str,
) -> Result<Option<Ready>, Refusal>
    ensures form { IfOk result (λ r. blank_of r ≡ (optional_at language.Check key.now (met fields.now)).form) }
    ensures made { IfOk result (λ r. AreMade ((optional_at language.Check key.now (met fields.now)).texts at.now) (part_of r)) }
    ensures refused { IfErr result (AreRefused ((optional_at language.Check key.now (met fields.now)).texts at.now)) }
{
    let here = under(alloc, at, key)?;
    optional_check(alloc, text_at(fields, key), here.as_str())
}

/// The mapping of the key, and none where it is absent or the empty text.
pub fn optional_mapping_at(
    alloc: Global,
    fields: &Members,
    key: &str,
    at: &str,
) -> Result<Option<Ready>, Refusal>
    ensures form { IfOk result (λ r. blank_of r ≡ (optional_at language.Mapping key.now (met fields.now)).form) }
    ensures made { IfOk result (λ r. AreMade ((optional_at language.Mapping key.now (met fields.now)).texts at.now) (part_of r)) }
    ensures refused { IfErr result (AreRefused ((optional_at language.Mapping key.now (met fields.now)).texts at.now)) }
{
    let here = under(alloc, at, key)?;
    optional_mapping(alloc, text_at(fields, key), here.as_str())
}

#[tactic(auto, using(bt_making::proofs::Refusing::check_refused))]
fn optional_check(alloc: Global, text: &str, at: &str) -> Result<Option<Ready>, Refusal>
    ensures form { IfOk result (λ r. blank_of r ≡ (optional_as language.Check text.now).form) }
    ensures made { IfOk result (λ r. AreMade ((optional_as language.Check text.now).texts at.now) (part_of r)) }
    ensures refused { IfErr result (AreRefused ((optional_as language.Check text.now).texts at.now)) }
{
    if text.is_empty() {
        return Ok(None);
    }
    Ok(Some(make_check(alloc, text, at)?))
}

#[tactic(auto, using(bt_making::proofs::Refusing::mapping_refused))]
fn optional_mapping(alloc: Global, text: &str, at: &str) -> Result<Option<Ready>, Refusal>
    ensures form { IfOk result (λ r. blank_of r ≡ (optional_as language.Mapping text.now).form) }
    ensures made { IfOk result (λ r. AreMade ((optional_as language.Mapping text.now).texts at.now) (part_of r)) }
    ensures refused { IfErr result (AreRefused ((optional_as language.Mapping text.now).texts at.now)) }
{
    if text.is_empty() {
        return Ok(None);
    }
    Ok(Some(make_mapping(alloc, text, at)?))
}
