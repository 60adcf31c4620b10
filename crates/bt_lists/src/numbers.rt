//! The methods on numbers.
ghost use Rattle.std.specs.Prelude.{◌≡◌, ◌≤◌, ◌+ℤ◌, ◌∷◌, pos, IfOk, ℤ};
ghost use Rattle.std.specs.Int.{int_min, int_max};
ghost use Rattle.std.specs.List.{fold};
ghost use Rattle.bt_lists.specs.Numbers as spec;

use bt_kinds::kinds::{failure, wrong};
use bt_kinds::limits::int_of;
use bt_kinds::targets::{array, number, numbers};
use bt_ports::NoMemory;
use bt_value::{Out, Val};
use std::alloc::Global;

/// The number without its sign.
#[tactic(auto, using(bt_kinds::proofs::Fits::abs_from))]
pub fn abs(alloc: Global, target: Val) -> Result<Out, NoMemory>
    ensures { IfOk result (λ o. o ≡ spec.abs target) }
{
    match number(&target) {
        Ok(n) => int_of(alloc, "abs", n.checked_abs()),
        Err(kind) => wrong(alloc, "abs", kind),
    }
}

// The sum on the way stays far within 128 bits, whatever the numbers are.
fn total(ns: &[i64]) -> i128
    ensures { result ≡ spec.total ns.now }
{
    let mut total: i128 = 0;
    for n in ns {
        total += i128::from(*n);
    }
    total
}

/// The sum of a list of numbers.
#[tactic(auto, using(bt_kinds::proofs::Fits::int_from))]
pub fn sum(alloc: Global, target: Val) -> Result<Out, NoMemory>
    ensures { IfOk result (λ o. o ≡ spec.sum target) }
{
    match array(target) {
        Ok(items) => match numbers(alloc, &items)? {
            Ok(ns) => int_of(alloc, "sum", i64::try_from(total(ns.as_slice())).ok()),
            Err(kind) => wrong(alloc, "sum", kind),
        },
        Err(kind) => wrong(alloc, "sum", kind),
    }
}

fn least(first: i64, rest: &[i64]) -> i64
    ensures { result ≡ fold int_min first rest.now }
{
    let mut best = first;
    for n in rest {
        best = best.min(*n);
    }
    best
}

fn greatest(first: i64, rest: &[i64]) -> i64
    ensures { result ≡ fold int_max first rest.now }
{
    let mut best = first;
    for n in rest {
        best = best.max(*n);
    }
    best
}

/// The least of a list of numbers.
pub fn min(alloc: Global, target: Val) -> Result<Out, NoMemory>
    ensures { IfOk result (λ o. o ≡ spec.min target) }
{
    match array(target) {
        Ok(items) => match numbers(alloc, &items)? {
            Ok(ns) => match ns.as_slice() {
                [] => failure(alloc, "min", "empty"),
                [first, rest @ ..] => Ok(Out::Value(Val::Int(least(*first, rest)))),
            },
            Err(kind) => wrong(alloc, "min", kind),
        },
        Err(kind) => wrong(alloc, "min", kind),
    }
}

/// The greatest of a list of numbers.
pub fn max(alloc: Global, target: Val) -> Result<Out, NoMemory>
    ensures { IfOk result (λ o. o ≡ spec.max target) }
{
    match array(target) {
        Ok(items) => match numbers(alloc, &items)? {
            Ok(ns) => match ns.as_slice() {
                [] => failure(alloc, "max", "empty"),
                [first, rest @ ..] => Ok(Out::Value(Val::Int(greatest(*first, rest)))),
            },
            Err(kind) => wrong(alloc, "max", kind),
        },
        Err(kind) => wrong(alloc, "max", kind),
    }
}
