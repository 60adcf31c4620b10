//! The numbers of leaves and holds.
ghost use Rattle.std.specs.Prelude.{◌≡◌, ◌++◌, ◌∷◌, [], ◌+◌, ◌*◌, ◌<◌, ◌≤◌, ℕ, List, IfOk, OnOk, Some, drop, length, true};
ghost use Rattle.bt_demand.specs.declared.routes.HoldPolicy.{HoldPolicy};
ghost use Rattle.bt_outputs.specs.Numbers as spec;
ghost use Rattle.bt_outputs.specs.Numbers.{Next};
ghost use Rattle.bt_outputs.specs.declared.output.Output.TheVariants as output;
ghost use Rattle.bt_output_plan.specs.Made.{blanked, parts};
ghost use Rattle.bt_output_plan.specs.Numbered.{next_of};
ghost use Rattle.bt_output_plan.specs.Reading.{repeated};
ghost use Rattle.bt_output_plan.specs.Sinks.{place};

use bt_demand::routes::{HoldPolicies, HoldPolicy};
use bt_outputs::{Output, Shift};
use bt_ports::NoMemory;
use bt_ports::text::Text;
use sqlite_items::Boxed;
use std::alloc::Global;

/// How far leaves and holds are numbered: the number of the next leaf, and the policies of the holds so far.
#[derive(Drop)]
pub struct Numbers {
    pub leaf: u32,
    pub holds: HoldPolicies,
}

// A number as one of 32 bits.
//
// The numbers of an output without lints stay far below 2^32: one that doesn't is answered as want of memory.
fn small(n: usize) -> Result<u32, NoMemory>
    ensures { IfOk result (λ k. k ≡ n) }
{
    match u32::try_from(n) {
        Ok(k) => Ok(k),
        Err(_) => Err(NoMemory),
    }
}

fn sum(a: u32, b: u32) -> Result<u32, NoMemory>
    ensures { IfOk result (λ k. k ≡ a + b) }
{
    match a.checked_add(b) {
        Some(k) => Ok(k),
        None => Err(NoMemory),
    }
}

fn product(a: u32, b: u32) -> Result<u32, NoMemory>
    ensures { IfOk result (λ k. k ≡ a * b) }
{
    match a.checked_mul(b) {
        Some(k) => Ok(k),
        None => Err(NoMemory),
    }
}

fn difference(a: u32, b: u32) -> Result<u32, NoMemory>
    ensures { IfOk result (λ k. a ≡ b + k) }
{
    match a.checked_sub(b) {
        Some(k) => Ok(k),
        None => Err(NoMemory),
    }
}

// The number of a sink. The names are those of the sinks of all leaves: one that isn't there is answered as want of memory.
fn sink_named(names: &[Text], name: &str) -> Result<u32, NoMemory>
    ensures is { IfOk result (λ k. k ≡ place names.now name.now) }
    ensures known { IfOk result (λ k. k < length names.now) }
{
    for (i, known) in names.iter().enumerate() {
        if name == known.as_str() {
            return small(i);
        }
    }
    Err(NoMemory)
}

/// The numbers that come next.
pub fn marked(numbers: &Numbers) -> Result<Shift, NoMemory>
    ensures leaf { IfOk result (λ s. s.leaves ≡ numbers.now.leaf) }
    ensures hold { IfOk result (λ s. s.holds ≡ length numbers.now.holds.list) }
{
    Ok(Shift {
        leaves: numbers.leaf,
        holds: small(numbers.holds.len())?,
    })
}

/// The next leaf, which is for the sink of this name.
pub fn leaf(names: &[Text], name: &str, numbers: &mut Numbers) -> Result<Output, NoMemory>
    ensures form { IfOk result (λ o. blanked o ≡ output.Leaf 0 (place names.now name.now)) }
    ensures texts { IfOk result (λ o. parts o ≡ []) }
    ensures numbered { IfOk result (λ o. spec.numbers (length names.now) o (next_of numbers.old) ≡ Some (next_of numbers.new)) }
    ensures holds { OnOk result (numbers.new.holds.list ≡ numbers.old.holds.list) }
{
    let sink = sink_named(names, name)?;
    let n = numbers.leaf;
    numbers.leaf = sum(n, 1)?;
    Ok(Output::Leaf { leaf: n, sink })
}

/// The number of the next hold, which has this policy.
pub fn hold(policy: HoldPolicy, numbers: &mut Numbers) -> Result<u32, NoMemory>
    ensures number { IfOk result (λ n. n ≡ length numbers.old.holds.list) }
    ensures leaf { OnOk result (numbers.new.leaf ≡ numbers.old.leaf) }
    ensures holds { OnOk result (numbers.new.holds.list ≡ numbers.old.holds.list ++ policy ∷ []) }
{
    let node = small(numbers.holds.len())?;
    numbers.holds.push(policy)?;
    Ok(node)
}

/// Whether a hold is the last one so far. It is where no hold is numbered below it.
pub fn is_last(node: u32, numbers: &Numbers) -> bool
    ensures { result ≡ true → length numbers.now.holds.list ≡ node + 1 }
{
    numbers.holds.len() == node as usize + 1
}

// The policies behind a place.
fn tail(alloc: Global, holds: &HoldPolicies, from: usize) -> Result<HoldPolicies, NoMemory>
    ensures { IfOk result (λ t. t.list ≡ drop from holds.now.list) }
{
    let mut tail = HoldPolicies::new(alloc);
    let all = holds.as_slice();
    let start = if from < all.len() { from } else { all.len() };
    for policy in &all[start..] {
        tail.push(*policy)?;
    }
    Ok(tail)
}

fn push_all(holds: &mut HoldPolicies, more: &[HoldPolicy]) -> Result<(), NoMemory>
    ensures { OnOk result (holds.new.list ≡ holds.old.list ++ more.now) }
{
    for policy in more {
        holds.push(*policy)?;
    }
    Ok(())
}

fn push_copies(holds: &mut HoldPolicies, copies: u32, more: &[HoldPolicy]) -> Result<(), NoMemory>
    ensures { OnOk result (holds.new.list ≡ holds.old.list ++ repeated copies more.now) }
{
    for i in 0..copies {
        push_all(holds, more)?;
    }
    Ok(())
}

// Puts copies of the policies behind a place at the end, until each stands so many times, and gives how many there are.
#[tactic(auto, using(crate::proofs::Repeating::one_less))]
fn again(alloc: Global, tries: u32, from: u32, holds: &mut HoldPolicies) -> Result<u32, NoMemory>
    requires { 0 < tries }
    ensures own { IfOk result (λ n. length holds.old.list ≡ from + n) }
    ensures all { IfOk result (λ n. length holds.new.list ≡ from + tries * n) }
    ensures list { (kept own : List HoldPolicy) → length kept ≡ from → holds.old.list ≡ kept ++ own
        → OnOk result (holds.new.list ≡ kept ++ repeated tries own) }
{
    let own = tail(alloc, holds, from as usize)?;
    let count = difference(small(holds.len())?, from)?;
    push_copies(holds, tries - 1, own.as_slice())?;
    Ok(count)
}

#[tactic(auto, using(crate::proofs::Numbering::retried_so))]
fn retried(
    alloc: Global,
    tries: u32,
    leaves: u32,
    holds: u32,
    child: Output,
) -> Result<Output, NoMemory>
    ensures form { IfOk result (λ o. blanked o ≡ output.Retry tries 0 0 (blanked child)) }
    ensures texts { IfOk result (λ o. parts o ≡ parts child) }
    ensures numbered { (sinks : ℕ) (p q r : Next) → 0 < tries → q.leaf ≡ p.leaf + leaves → q.hold ≡ p.hold + holds
        → r.leaf ≡ p.leaf + tries * leaves → r.hold ≡ p.hold + tries * holds → spec.numbers sinks child p ≡ Some q
        → IfOk result (λ o. spec.numbers sinks o p ≡ Some r) }
{
    Ok(Output::Retry {
        copies: tries,
        leaves,
        holds,
        child: Boxed::new(alloc, child)?,
    })
}

// The numbers behind so many copies, of which the first was numbered from these on, and how many leaves and holds each has.
fn copied(alloc: Global, tries: u32, from: Shift, numbers: &mut Numbers) -> Result<Shift, NoMemory>
    requires { 0 < tries }
    ensures leaves { IfOk result (λ s. numbers.old.leaf ≡ from.leaves + s.leaves) }
    ensures holds { IfOk result (λ s. length numbers.old.holds.list ≡ from.holds + s.holds) }
    ensures leaf { IfOk result (λ s. numbers.new.leaf ≡ from.leaves + tries * s.leaves) }
    ensures hold { IfOk result (λ s. length numbers.new.holds.list ≡ from.holds + tries * s.holds) }
    ensures list { (kept own : List HoldPolicy) → length kept ≡ from.holds → numbers.old.holds.list ≡ kept ++ own
        → OnOk result (numbers.new.holds.list ≡ kept ++ repeated tries own) }
{
    let leaves = difference(numbers.leaf, from.leaves)?;
    let holds = again(alloc, tries, from.holds, &mut numbers.holds)?;
    numbers.leaf = sum(from.leaves, product(tries, leaves)?)?;
    Ok(Shift { leaves, holds })
}

/// So many copies of an output, one at least, which is the one whose leaves and holds were numbered from these numbers on.
pub fn copies(
    alloc: Global,
    tries: u32,
    from: Shift,
    child: Output,
    numbers: &mut Numbers,
) -> Result<Output, NoMemory>
    requires { 0 < tries }
    ensures form { IfOk result (λ o. blanked o ≡ output.Retry tries 0 0 (blanked child)) }
    ensures texts { IfOk result (λ o. parts o ≡ parts child) }
    ensures numbered { (sinks : ℕ) (p : Next) → p.leaf ≡ from.leaves → p.hold ≡ from.holds → spec.numbers sinks child p ≡ Some (next_of numbers.old)
        → IfOk result (λ o. spec.numbers sinks o p ≡ Some (next_of numbers.new)) }
    ensures holds { (kept own : List HoldPolicy) → length kept ≡ from.holds → numbers.old.holds.list ≡ kept ++ own
        → OnOk result (numbers.new.holds.list ≡ kept ++ repeated tries own) }
{
    match copied(alloc, tries, from, numbers) {
        Ok(own) => retried(alloc, tries, own.leaves, own.holds, child),
        Err(NoMemory) => Err(NoMemory),
    }
}
