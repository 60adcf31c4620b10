//! What a value may be at most: a number of 64 bits, and a depth of 127.
ghost use Rattle.std.specs.Prelude.{◌≡◌, IfOk, pos};
ghost use Rattle.bt_value.specs.declared.val.Val.{Int};
ghost use Rattle.bt_kinds.specs.Limits as spec;

use crate::kinds::failure;
use bt_ports::NoMemory;
use bt_value::{Out, Val, deeper};
use std::alloc::Global;

/// The number where one is given, and else the failure `NAME: out of range`.
pub fn int_of(alloc: Global, name: &str, n: Option<i64>) -> Result<Out, NoMemory>
    ensures { IfOk result (λ o. o ≡ spec.int_of name.now n) }
{
    match n {
        Some(n) => Ok(Out::Value(Val::Int(n))),
        None => failure(alloc, name, "out of range"),
    }
}

/// The value where it nests to 127 at most, and else the failure `NAME: too deep`.
#[tactic(auto, unfolding(crate::specs::Limits::limited))]
pub fn limited(alloc: Global, name: &str, v: Val) -> Result<Out, NoMemory>
    ensures { IfOk result (λ o. o ≡ spec.limited name.now v) }
{
    if deeper(&v, 127) {
        failure(alloc, name, "too deep")
    } else {
        Ok(Out::Value(v))
    }
}

/// A count as a number.
pub fn count(n: usize) -> Result<Val, NoMemory>
    ensures { IfOk result (λ x. x ≡ Int (pos n)) }
{
    match i64::try_from(n) {
        Ok(n) => Ok(Val::Int(n)),
        Err(_) => Err(NoMemory),
    }
}
