//! Numbers by steps.
ghost use Rattle.std.specs.Prelude.{◌≡◌, ◌≤◌, ◌<◌, ◌+ℤ◌, ◌*ℤ◌, ℕ, pos, IfOk, FitsSigned, false};
ghost use Rattle.std.specs.Int.{w64};
ghost use Rattle.bt_kinds.specs.Operators as operators;
ghost use Rattle.bt_meaning.specs.Functions as spec;

use crate::parts::number_of;
use bt_kinds::kinds::failure;
use bt_kinds::operators::is_zero;
use bt_ports::NoMemory;
use bt_value::{Out, Val, Vals};
use sqlite_items::Items;
use std::alloc::Global;

/// The most items that a range has.
const MOST: u128 = 1_000_000;

/// A number, and 0 for what is below.
fn above_zero(n: i128) -> u128
    ensures { result ≡ spec.above_zero n }
{
    if n < 0 { 0 } else { n as u128 }
}

/// How far `b` lies in the direction of the step.
fn distance(a: i64, b: i64, s: i64) -> i128
    ensures { result ≡ spec.distance a b s }
{
    if s < 0 {
        a as i128 - b as i128
    } else {
        b as i128 - a as i128
    }
}

/// How many items a range has.
#[tactic(auto, unfolding(bt_meaning::specs::Functions::range_length))]
fn range_length(a: i64, b: i64, s: i64) -> u128
    requires { operators.is_zero s ≡ false }
    ensures { result ≡ spec.range_length a b s }
{
    let step = s.unsigned_abs() as u128;
    (above_zero(distance(a, b, s)) + (step - 1)) / step
}

/// Numbers from one on, by equal steps.
#[derive(Clone, Copy)]
struct Progression {
    from: i64,
    step: i64,
}

impl Progression {
    /// The number at a place.
    fn at(&self, i: u64) -> i128
        requires { i ≤ 1000000 }
        ensures { result ≡ self.now.from +ℤ pos i *ℤ self.now.step }
    {
        self.from as i128 + i as i128 * self.step as i128
    }

    /// The same, where it fits 64 bits.
    fn item(&self, i: u64) -> i64
        requires few { i ≤ 1000000 }
        requires fits { FitsSigned w64 (self.now.from +ℤ pos i *ℤ self.now.step) }
        ensures { result ≡ self.now.from +ℤ pos i *ℤ self.now.step }
    {
        self.at(i) as i64
    }

    /// So many of them.
    #[tactic(auto, using(crate::proofs::Steps::items_none, crate::proofs::Steps::items_more))]
    fn items(&self, alloc: Global, n: u64) -> Result<Vals, NoMemory>
        requires few { n ≤ 1000000 }
        requires fit { (i : ℕ) → i < n → FitsSigned w64 (self.now.from +ℤ pos i *ℤ self.now.step) }
        ensures { IfOk result (λ xs. xs ≡ spec.range_items self.now.from self.now.step n) }
    {
        let mut got = Items::new(alloc);
        for i in 0..n {
            got.push(Val::Int(self.item(i)))?;
        }
        Ok(got)
    }
}

fn range_from(alloc: Global, a: i64, s: i64, n: u128) -> Result<Out, NoMemory>
    requires { (i : ℕ) → i < n → FitsSigned w64 (a +ℤ pos i *ℤ s) }
    ensures { IfOk result (λ o. o ≡ spec.range_from a s n) }
{
    if n > MOST {
        return failure(alloc, "range", "out of range");
    }
    let numbers = Progression { from: a, step: s };
    Ok(Out::Value(Val::Arr(numbers.items(alloc, n as u64)?)))
}

fn ranged(alloc: Global, a: i64, b: i64, s: i64) -> Result<Out, NoMemory>
    ensures { IfOk result (λ o. o ≡ spec.ranged a b s) }
{
    if is_zero(s) {
        return failure(alloc, "range", "out of range");
    }
    range_from(alloc, a, s, range_length(a, b, s))
}

/// Takes out the first outcome, or nothing where there is none.
pub fn taken(outs: &mut Items<Out>) -> Out
    ensures first { result ≡ spec.first outs.old }
    ensures rest { outs.new ≡ spec.rest outs.old }
{
    if outs.is_empty() {
        return Out::Nothing;
    }
    outs.remove(0)
}

fn by_step(alloc: Global, a: i64, b: i64, rest: Items<Out>) -> Result<Out, NoMemory>
    ensures { IfOk result (λ o. o ≡ spec.with_step rest (λ s. spec.ranged a b s)) }
{
    let mut rest = rest;
    if rest.is_empty() {
        return ranged(alloc, a, b, 1);
    }
    match number_of(alloc, "range", taken(&mut rest))? {
        Ok(s) => ranged(alloc, a, b, s),
        Err(o) => Ok(o),
    }
}

/// The numbers from the first argument on, before the second, by steps of the third or of 1.
pub fn range_of(alloc: Global, args: Items<Out>) -> Result<Out, NoMemory>
    ensures { IfOk result (λ o. o ≡ spec.range_of args) }
{
    let mut args = args;
    let first = taken(&mut args);
    match number_of(alloc, "range", first)? {
        Ok(a) => {
            let second = taken(&mut args);
            match number_of(alloc, "range", second)? {
                Ok(b) => by_step(alloc, a, b, args),
                Err(o) => Ok(o),
            }
        }
        Err(o) => Ok(o),
    }
}
