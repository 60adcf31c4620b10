//! The demands and routes of the random cases.
ghost use Rattle.std.specs.Prelude.{◌≡◌, ℕ, ◌<◌, ◌≤◌, ◌^◌, [], ◌∷◌, List, length, IfOk, IsTrue, codes};
ghost use Rattle.std.specs.List.{AllByRecursion};
ghost use Rattle.bt_demand.specs.Parts.{PartFits, parts_of};
ghost use Rattle.bt_demand.specs.Tree.{leaf, reject, all, hold, none, more};
ghost use Rattle.bt_demand.specs.View.{tree, trees};
ghost use Rattle.bt_demand.specs.WellFormed.{Rises, WellFormed};
ghost use Rattle.bt_demand.specs.declared.demand.Stage.TheVariants as Stage;
ghost use Rattle.bt_demand.specs.declared.demand.State.TheVariants as State;
ghost use Rattle.bt_ledger.specs.Calls.{Fits};
ghost use Rattle.bt_ledger.specs.Verdicts.{part_of};
ghost use Rattle.bt_ledger_cases.specs.Shape.{shape, two_of};
ghost use Rattle.bt_ledger_cases.specs.declared.shapes.Shape.TheVariants as Shape;

use bt_demand::demand::{Demand, Demands, Stage, State};
use bt_demand::routes::{Routed, Routes};
use bt_ports::NoMemory;
use bt_ports::blob::Blob;
use bt_ports::origins::Origins;
use bt_ports::text::Text;
use std::alloc::Global;

/// What a part asks for.
#[derive(Clone, Copy, Debug, PartialEq, Eq)]
pub enum Shape {
    Leaf,
    Drop,
    Reject,
    Held,
    Tiers,
    Both,
    Late,
}

/// A part: what it asks for, the item that it comes from and how many after it, and what its holds say.
#[derive(Clone, Copy)]
pub struct Part {
    pub shape: Shape,
    pub item: u64,
    pub more: u64,
    pub ends: bool,
    pub size: u64,
}

fn record(alloc: Global, number: u32, sink: u32) -> Result<Demand, NoMemory>
    ensures { IfOk result (λ d. tree d ≡ leaf number sink (codes "record") State.Untried) }
{
    Ok(Demand::Leaf {
        leaf: number,
        sink,
        bytes: Blob::make(alloc, b"record")?,
        state: State::Untried,
    })
}

fn held(alloc: Global, node: u32, part: Part, child: Demand) -> Result<Demand, NoMemory>
    ensures { IfOk result (λ d. tree d ≡ hold node part.ends part.size (tree child) Stage.Untried) }
{
    Ok(Demand::Hold {
        node,
        ends: part.ends,
        size: part.size,
        child: Box::new(alloc, child)?,
        stage: Stage::Untried,
    })
}

fn two(alloc: Global, first: Demand, second: Demand) -> Result<Demands, NoMemory>
    ensures { IfOk result (λ d. trees d.list.items ≡ more (tree first) (more (tree second) none)) }
{
    let mut list = Vec::new(alloc);
    list.push(first)?;
    list.push(second)?;
    Ok(Demands { list })
}

// A reject.
fn reject(alloc: Global) -> Result<Demand, NoMemory>
    ensures { IfOk result (λ d. tree d ≡ reject (codes "no")) }
{
    Ok(Demand::Reject(Text::make(alloc, "no")?))
}

// One record that is held.
fn held_record(alloc: Global, part: Part) -> Result<Demand, NoMemory>
    ensures { IfOk result (λ d. tree d ≡ shape Shape.Held part.ends part.size (codes "record") (codes "no")) }
{
    let child = record(alloc, 0, 1)?;
    held(alloc, 0, part, child)
}

// A record, and a held one where it is refused.
fn tiers(alloc: Global, part: Part) -> Result<Demand, NoMemory>
    ensures { IfOk result (λ d. tree d ≡ shape Shape.Tiers part.ends part.size (codes "record") (codes "no")) }
{
    let first = record(alloc, 0, 0)?;
    let second = record(alloc, 1, 1)?;
    let second = held(alloc, 1, part, second)?;
    Ok(Demand::First(two(alloc, first, second)?))
}

// Two records that are held apart.
fn both(alloc: Global, part: Part) -> Result<Demand, NoMemory>
    ensures { IfOk result (λ d. tree d ≡ shape Shape.Both part.ends part.size (codes "record") (codes "no")) }
{
    let first = record(alloc, 0, 0)?;
    let first = held(alloc, 0, part, first)?;
    let second = record(alloc, 1, 1)?;
    let second = held(alloc, 2, part, second)?;
    Ok(Demand::All(two(alloc, first, second)?))
}

// A record and a held one, behind a reject.
fn late(alloc: Global, part: Part) -> Result<Demand, NoMemory>
    ensures { IfOk result (λ d. tree d ≡ shape Shape.Late part.ends part.size (codes "record") (codes "no")) }
{
    let both = record_and_held(alloc, part)?;
    let first = reject(alloc)?;
    Ok(Demand::First(two(alloc, first, both)?))
}

fn record_and_held(alloc: Global, part: Part) -> Result<Demand, NoMemory>
    ensures { IfOk result (λ d. tree d ≡ all (two_of (leaf 0 0 (codes "record") State.Untried) (hold 1 part.ends part.size (leaf 1 1 (codes "record") State.Untried) Stage.Untried))) }
{
    let first = record(alloc, 0, 0)?;
    let second = record(alloc, 1, 1)?;
    let second = held(alloc, 1, part, second)?;
    Ok(Demand::All(two(alloc, first, second)?))
}

// What the part asks for.
fn demand(alloc: Global, part: Part) -> Result<Demand, NoMemory>
    ensures { IfOk result (λ d. tree d ≡ shape part.shape part.ends part.size (codes "record") (codes "no")) }
{
    match part.shape {
        Shape::Leaf => record(alloc, 0, 0),
        Shape::Drop => Ok(Demand::Drop),
        Shape::Reject => reject(alloc),
        Shape::Held => held_record(alloc, part),
        Shape::Tiers => tiers(alloc, part),
        Shape::Both => both(alloc, part),
        Shape::Late => late(alloc, part),
    }
}

// The items of the part, of so many.
fn origins(alloc: Global, part: Part, items: u64) -> Result<Origins, NoMemory>
    requires { 0 < items }
    ensures some { IfOk result (λ o. 0 < length o) }
    ensures rising { IfOk result (λ o. Rises o) }
    ensures known { IfOk result (λ o. AllByRecursion (λ i. i < items) o) }
{
    let mut from = Origins::make(alloc, part.item % items)?;
    for more in 0..part.more {
        let item = part.item.wrapping_add(more) % items;
        from.join(&Origins::make(alloc, item)?)?;
    }
    if all_below(&from, items) {
        return Ok(from);
    }
    Origins::make(alloc, 0)
}

fn all_below(from: &Origins, items: u64) -> bool
    ensures known { IsTrue result → AllByRecursion (λ i. i < items) from.now }
    ensures some { 0 < length from.now }
    ensures rising { Rises from.now }
{
    from.as_slice().iter().all(|i| *i < items)
}

fn routed(alloc: Global, part: Part, items: u64) -> Result<Routed, NoMemory>
    requires { 0 < items }
    ensures { IfOk result (λ r. PartFits 2 3 items (part_of r)) }
{
    let from = origins(alloc, part, items)?;
    let demand = demand(alloc, part)?;
    Ok(Routed { from, demand })
}

/// The parts of a transaction of so many items. Without items it has none.
pub fn routes(alloc: Global, parts: &[Part], items: u64) -> Result<Routes, NoMemory>
    requires { length parts.now < 2 ^ 32 }
    ensures fits { IfOk result (λ r. Fits 3 items (parts_of r.parts.list)) }
    ensures few { IfOk result (λ r. length r.parts.list < 2 ^ 32) }
    ensures none { IfOk result (λ r. r.counts.list ≡ []) }
    ensures room { IfOk result (λ r. items ≤ r.counts.spare) }
{
    let mut routes = Routes::make(alloc, items as usize)?;
    if items == 0 {
        return Ok(routes);
    }
    for part in parts {
        let routed = routed(alloc, *part, items)?;
        routes.parts.push(routed)?;
    }
    Ok(routes)
}
