//! The bytes of a message, put into the records that it asks for.
ghost use Rattle.std.specs.Prelude.{◌≡◌, ◌+◌, IfOk, OnOk, length};
ghost use Rattle.bt_demand.specs.Tree.{more, none};
ghost use Rattle.bt_demand.specs.View.{tree, trees};
ghost use Rattle.bt_demand.specs.WellFormed.{leaves, leaves_in};
ghost use Rattle.bt_routing.specs.Filled.{Fills};

use crate::supply::{Supply, take};
use bt_demand::demand::{Demand, Demands};
use bt_ports::NoMemory;
use std::alloc::Global;

// A sum, or want of memory where there is none: there are never so many records.
fn sum(a: usize, b: usize) -> Result<usize, NoMemory>
    ensures { IfOk result (λ n. n ≡ a + b) }
{
    match a.checked_add(b) {
        Some(n) => Ok(n),
        None => Err(NoMemory),
    }
}

/// How many records a demand has.
#[cycle(records)]
pub(crate) fn records(d: &Demand) -> Result<usize, NoMemory>
    ensures { IfOk result (λ n. n ≡ length (leaves (tree d.now))) }
{
    match d {
        Demand::Leaf { .. } => Ok(1),
        Demand::Drop => Ok(0),
        Demand::Reject(_) => Ok(0),
        Demand::All(children) => records_in(children),
        Demand::First(children) => records_in(children),
        Demand::Hold { child, .. } => records(child),
    }
}

#[cycle(records)]
fn records_in(ds: &Demands) -> Result<usize, NoMemory>
    ensures { IfOk result (λ n. n ≡ length (leaves_in (trees ds.now.list.items))) }
{
    let mut count = 0;
    for d in ds.list.iter() {
        count = sum(count, records(d)?)?;
    }
    Ok(count)
}

/// Puts the bytes into each record of a demand, where they are for so many at least.
#[cycle(fill)]
pub(crate) fn fill(alloc: Global, d: &mut Demand, supply: &mut Supply) -> Result<(), NoMemory>
    ensures { OnOk result (Fills supply.old supply.new (more (tree d.old) none) (more (tree d.new) none)) }
{
    match d {
        Demand::Leaf { bytes, .. } => {
            *bytes = take(alloc, supply)?;
            Ok(())
        }
        Demand::Drop => Ok(()),
        Demand::Reject(_) => Ok(()),
        Demand::All(children) => fill_each(alloc, children, supply),
        Demand::First(children) => fill_each(alloc, children, supply),
        Demand::Hold { child, .. } => fill(alloc, child, supply),
    }
}

#[cycle(fill)]
fn fill_each(alloc: Global, ds: &mut Demands, supply: &mut Supply) -> Result<(), NoMemory>
    ensures { OnOk result (Fills supply.old supply.new (trees ds.old.list.items) (trees ds.new.list.items)) }
{
    for i in 0..ds.list.len() {
        let d = &mut ds.list[i];
        fill(alloc, d, supply)?;
    }
    Ok(())
}
