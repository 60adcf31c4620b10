//! Demands of which nothing was tried.
ghost use Rattle.std.specs.Prelude.{◌≡◌, ◌+◌, [], IfOk};
ghost use Rattle.bt_demand.specs.Tree.{leaf, hold, all, first, more, none, drop};
ghost use Rattle.bt_demand.specs.View.{tree, trees};
ghost use Rattle.bt_demand.specs.declared.demand.State.TheVariants.{Untried as Fresh};
ghost use Rattle.bt_demand.specs.declared.demand.Stage.TheVariants.{Untried as Idle};
ghost use Rattle.bt_outputs.specs.Asked as asked;

use bt_demand::demand::{Demand, Demands, Stage, State};
use bt_outputs::Shift;
use bt_ports::NoMemory;
use bt_ports::blob::Blob;
use bt_ports::text::Text;
use std::alloc::Global;

/// The number behind so many of earlier copies.
///
/// The numbers of a plan stay far below 2^32: one that doesn't is answered as want of memory.
pub(crate) fn number(before: u32, n: u32) -> Result<u32, NoMemory>
    ensures { IfOk result (λ k. k ≡ before + n) }
{
    match before.checked_add(n) {
        Some(k) => Ok(k),
        None => Err(NoMemory),
    }
}

/// Behind a copy with so many leaves and holds.
pub(crate) fn behind(leaves: u32, holds: u32, shift: Shift) -> Result<Shift, NoMemory>
    ensures { IfOk result (λ s. s ≡ asked.behind leaves holds shift) }
{
    Ok(Shift {
        leaves: number(shift.leaves, leaves)?,
        holds: number(shift.holds, holds)?,
    })
}

/// A record that has no bytes yet.
pub(crate) fn leaf(alloc: Global, n: u32, sink: u32, shift: Shift) -> Result<Demand, NoMemory>
    ensures { IfOk result (λ d. tree d ≡ leaf (shift.leaves + n) sink [] Fresh) }
{
    Ok(Demand::Leaf {
        leaf: number(shift.leaves, n)?,
        sink,
        bytes: Blob::new(alloc),
        state: State::Untried,
    })
}

/// A hold round a demand.
pub(crate) fn hold(
    alloc: Global,
    node: u32,
    ends: bool,
    size: usize,
    child: Demand,
) -> Result<Demand, NoMemory>
    ensures { IfOk result (λ d. tree d ≡ hold node ends size (tree child) Idle) }
{
    Ok(Demand::Hold {
        node,
        ends,
        size: size as u64,
        child: Box::new(alloc, child)?,
        stage: Stage::Untried,
    })
}

/// Each of the demands.
pub(crate) fn all(list: Vec<Demand>) -> Demand
    ensures { tree result ≡ all (trees list.items) }
{
    Demand::All(Demands { list })
}

/// The first of the demands that isn't lost.
pub(crate) fn first(list: Vec<Demand>) -> Demand
    ensures { tree result ≡ first (trees list.items) }
{
    Demand::First(Demands { list })
}

/// What is asked where no case passes.
fn unmatched(alloc: Global, strict: bool) -> Result<Demand, NoMemory>
    ensures { IfOk result (λ d. tree d ≡ asked.unmatched strict) }
{
    if strict {
        Ok(Demand::Reject(Text::make(alloc, "switch: no case matched")?))
    } else {
        Ok(Demand::Drop)
    }
}

/// The demands of the cases that pass.
pub(crate) fn matched(alloc: Global, strict: bool, list: Vec<Demand>) -> Result<Demand, NoMemory>
    ensures { IfOk result (λ d. tree d ≡ asked.matched strict (trees list.items)) }
{
    if list.is_empty() {
        unmatched(alloc, strict)
    } else {
        Ok(all(list))
    }
}

/// A demand that is dropped where it is lost, if `error` says so.
pub(crate) fn or_dropped(alloc: Global, error: bool, demand: Demand) -> Result<Demand, NoMemory>
    ensures { IfOk result (λ d. tree d ≡ asked.or_dropped error (tree demand)) }
{
    if !error {
        return Ok(demand);
    }
    let mut list = Vec::with_capacity(alloc, 2)?;
    list.push(demand)?;
    list.push(Demand::Drop)?;
    Ok(first(list))
}
