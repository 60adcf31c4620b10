//! A walk of a demand, as text.
use bt_demand::demand::Demand;
use bt_demand::todo::Todo;
use std::alloc::{AllocError, Global};

// Does a step.
fn step(demand: &mut Demand, mark: char) {
    if let Some(node) = mark.to_digit(10) {
        demand.release(node);
        return;
    }
    match demand.todo() {
        Some(Todo::Put { leaf, .. }) => demand.settle(leaf, mark == '+'),
        Some(Todo::Wait { node }) => demand.wait(node),
        Some(Todo::Settled { .. }) => {}
        None => {}
    }
}

fn push_next(all: &mut String, mark: char, demand: &Demand) -> Result<(), AllocError> {
    match demand.todo() {
        Some(Todo::Put { leaf, sink }) => write!(all, "  {mark} leaf {leaf} to sink {sink}")?,
        Some(Todo::Wait { node }) => write!(all, "  {mark} hold {node} begins to wait")?,
        Some(Todo::Settled { met }) => write!(all, "  {mark} settled, met: {met}")?,
        None => write!(all, "  {mark} all waits")?,
    }
    let outcome = demand.outcome();
    writeln!(
        all,
        "; {outcome:?}, begun: {}, active: {}",
        demand.begun(),
        demand.active()
    )
}

// What stands in the demand: the bytes of leaf 2, what is next below hold 3, and what hold 3 says.
fn push_found(all: &mut String, demand: &Demand) -> Result<(), AllocError> {
    let bytes = demand.bytes_of(2).unwrap_or(b"none");
    writeln!(
        all,
        "  bytes of leaf 2: {}, below hold 3: {}",
        str::from_utf8(bytes).unwrap_or("?"),
        demand.leaf_below(3, 2)
    )?;
    let next = demand.todo_below(3);
    let held = demand.held_by(3);
    writeln!(all, "  next below hold 3: {next:?}, which says {held:?}")
}

/// The walk: what is next at its beginning and after each step, and what stands in the demand at the end.
pub fn walk(
    alloc: Global,
    name: &str,
    demand: &mut Demand,
    steps: &str,
) -> Result<String, AllocError> {
    let mut all = String::new(alloc);
    writeln!(&mut all, "{name}: holds {}", demand.holds())?;
    push_next(&mut all, '.', demand)?;
    for mark in steps.chars() {
        step(demand, mark);
        push_next(&mut all, mark, demand)?;
    }
    let refused = demand.least_refused();
    let why = demand.why();
    writeln!(&mut all, "  least refused leaf: {refused:?}, why: {why:?}")?;
    push_found(&mut all, demand)?;
    Ok(all)
}
