//! What makes a mapping ready to run.

ghost use Rattle.std.specs.Prelude.{◌≡◌, IfOk, IfErr};
ghost use Rattle.bt_literals.specs.Literals as spec;
ghost use Rattle.bt_literals.specs.Literals.{AllRead, IsRefused};

use crate::patterns::{PatternFault, build_patterns};
use bt_ready::Ready;
use bt_tree::Mapping;
use std::alloc::Global;

/// Builds each pattern of a mapping, once and in order of the text, and keeps the mapping.
///
/// `Bad` tells the place of the first literal that isn't read as a pattern. A refusal gives the mapping
/// back.
pub fn ready(alloc: Global, mapping: Mapping) -> Result<Ready, (PatternFault, Mapping)>
    ensures kept { IfOk result (λ r. r.mapping ≡ mapping) }
    ensures built { IfOk result (λ r. r.patterns.list ≡ spec.texts (spec.patterns mapping)) }
    ensures read { IfOk result (λ r. AllRead (spec.patterns mapping)) }
    ensures refused { IfErr result (λ e. IsRefused (spec.patterns mapping) e.0) }
    ensures given_back { IfErr result (λ e. e.1 ≡ mapping) }
{
    match build_patterns(alloc, &mapping) {
        Ok(patterns) => Ok(Ready { mapping, patterns }),
        Err(fault) => Err((fault, mapping)),
    }
}
