//! The input of a configuration.
ghost use Rattle.std.specs.Prelude.{[], IfErr, IfOk};
ghost use Rattle.bt_making.specs.Sources.{AreRefused};
ghost use Rattle.bt_input_plan.specs.Compiled as spec;
ghost use Rattle.bt_input_plan.specs.Compiled.{IsInputOf};

use crate::inputs::{default, input_at};
use crate::plan::InputPlan;
use bt_making::Refusal;
use bt_value::Val;
use std::alloc::Global;

/// The input of a configuration, with its checks made ready.
///
/// A field that is absent, or that has a lint, reads as its default.
pub fn make_input(alloc: Global, config: &Val) -> Result<InputPlan, Refusal>
    ensures made { IfOk result (IsInputOf config.now) }
    ensures refused { IfErr result (AreRefused ((spec.outline config.now).texts [])) }
{
    match config {
        Val::Obj(fields) => input_at(alloc, fields, "input", ""),
        _ => Ok(default(alloc)?),
    }
}
