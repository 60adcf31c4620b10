//! The union of many origins.
ghost use Rattle.std.specs.Prelude.{◌≡◌, ◌||◌, ℕ, IfOk, OnOk, ◌∷◌, nat_eq};
ghost use Rattle.std.specs.List.Sorted.{IsStrictlyIncreasing};
ghost use Rattle.std.specs.Set.{is_member};
ghost use Rattle.std.specs.VecDeque.{deque_len};
ghost use Rattle.bt_batches.specs.Unions as spec;

use bt_ports::NoMemory;
use bt_ports::origins::Origins;
use std::alloc::Global;
use std::collections::VecDeque;
use std::mem;

/// The same numbers again.
#[tactic(auto, using(crate::proofs::UnionLemmas::merged_first))]
pub(crate) fn copy(alloc: Global, from: &Origins) -> Result<Origins, NoMemory>
    ensures { IfOk result (λ o. o ≡ from.now) }
{
    let numbers = from.as_slice();
    let mut copy = Origins::make(alloc, numbers[0])?;
    copy.join(from)?;
    Ok(copy)
}

// Whether all numbers stand behind those of a run.
fn follows(run: &Origins, from: &Origins) -> bool {
    let numbers = run.as_slice();
    numbers[numbers.len() - 1] < from.first()
}

/// Joins numbers to a run where they stand behind it; else they begin another run.
#[tactic(auto, using(crate::proofs::UnionLemmas::joined_in, crate::proofs::UnionLemmas::moved_in))]
pub(crate) fn add(
    run: &mut Origins,
    runs: &mut VecDeque<Origins>,
    from: Origins,
) -> Result<(), NoMemory>
    ensures rising { IsStrictlyIncreasing from }
    ensures members { OnOk result ((q : ℕ) → spec.is_in_any (run.new ∷ runs.new.items) q
        ≡ (spec.is_in_any (run.old ∷ runs.old.items) q || is_member nat_eq from q)) }
{
    if follows(run, &from) {
        return run.join(&from);
    }
    let done = mem::replace(run, from);
    runs.push_back(done)?;
    Ok(())
}

// Puts one run behind the others, and takes out the first of them.
#[tactic(auto, using(crate::proofs::UnionLemmas::turned_in))]
fn rotate(run: Origins, runs: &mut VecDeque<Origins>) -> Result<Origins, NoMemory>
    ensures members { IfOk result (λ first. (q : ℕ) → spec.is_in_any (first ∷ runs.new.items) q
        ≡ spec.is_in_any (run ∷ runs.old.items) q) }
    ensures len { OnOk result (deque_len runs.new ≡ deque_len runs.old) }
{
    match runs.pop_front() {
        None => Ok(run),
        Some(first) => {
            runs.push_back(run)?;
            Ok(first)
        }
    }
}

/// The union of runs: the first two are joined behind the others until there is one, so that each number is moved about as
/// often as the number of runs can be halved.
#[tactic(auto, using(crate::proofs::UnionLemmas::joined_in))]
pub(crate) fn union(first: Origins, runs: VecDeque<Origins>) -> Result<Origins, NoMemory>
    ensures members { IfOk result (λ o. (q : ℕ) → is_member nat_eq o q ≡ spec.is_in_any (first ∷ runs.items) q) }
    ensures rising { IfOk result (λ o. IsStrictlyIncreasing o) }
{
    let mut runs = runs;
    let mut run = first;
    while let Some(other) = runs.pop_front() {
        run.join(&other)?;
        run = rotate(run, &mut runs)?;
    }
    // That its numbers rise is what this call says.
    let _ = run.as_slice();
    Ok(run)
}
