//! Transactions that are served one after the other in a full window: admitted, given, settled, answered and closed.
ghost use Rattle.std.specs.Prelude.{◌≡◌, ◌<◌, ◌^◌, IfOk, length, vec_len};
ghost use Rattle.bt_ledger_cases.specs.Sized.{Sized};

use crate::both::{Sizes, has_room};
use crate::random::{empty, policies};
use crate::shapes::{Part, Shape, routes};
use bt_demand::todo::Todo;
use bt_ledger::ledger::Ledger;
use bt_ports::NoMemory;
use std::alloc::{AllocError, Global};

// A part for each of so many items, which asks for one record.
fn parts(alloc: Global, items: u32) -> Result<Vec<Part>, NoMemory>
    ensures { IfOk result (λ v. vec_len v ≡ items) }
{
    let mut parts = Vec::with_capacity(alloc, items as usize)?;
    for item in 0..items {
        parts.push(Part {
            shape: Shape::Leaf,
            item: item as u64,
            more: 0,
            ends: false,
            size: 0,
        })?;
    }
    Ok(parts)
}

// Admits a transaction of these parts, each from an item of its own, and gives it its routes.
fn begin(
    alloc: Global,
    ledger: &mut Ledger,
    sizes: Sizes,
    number: u64,
    parts: &[Part],
) -> Result<(), NoMemory>
    requires sized { Sized sizes.window sizes.entries ledger.old }
    requires few { length parts.now < 2 ^ 32 }
    ensures { Sized sizes.window sizes.entries ledger.new }
{
    let items = parts.len() as u64;
    let routes = routes(alloc, parts, items)?;
    match ledger.admit(number, number, items) {
        None => {}
        Some(slot) => ledger.give(slot, routes),
    }
    Ok(())
}

// Puts the record of a part.
fn settle(ledger: &mut Ledger, sizes: Sizes, slot: u32, part: u32)
    requires sized { Sized sizes.window sizes.entries ledger.old }
    requires slot { slot < sizes.window }
    ensures { Sized sizes.window sizes.entries ledger.new }
{
    if !ledger.is_given(slot) {
        return;
    }
    if part >= ledger.parts(slot) {
        return;
    }
    if !has_room(ledger, sizes.entries, slot, part) {
        return;
    }
    match ledger.todo(slot, part) {
        Some(Todo::Put { leaf, .. }) => ledger.settle_leaf(slot, part, leaf, true),
        _ => {}
    }
}

// Answers the item that is due, where there is one.
fn answer(ledger: &mut Ledger, sizes: Sizes, slot: u32)
    requires sized { Sized sizes.window sizes.entries ledger.old }
    requires slot { slot < sizes.window }
    ensures { Sized sizes.window sizes.entries ledger.new }
{
    if !ledger.is_given(slot) {
        return;
    }
    match ledger.due(slot) {
        Some(item) => {
            let _verdict = ledger.verdict_of(slot, item);
            ledger.answered(slot, item);
        }
        None => {}
    }
}

// Closes the slot, where all its items are answered.
fn close(ledger: &mut Ledger, sizes: Sizes, slot: u32)
    requires sized { Sized sizes.window sizes.entries ledger.old }
    requires slot { slot < sizes.window }
    ensures { Sized sizes.window sizes.entries ledger.new }
{
    if !ledger.is_given(slot) {
        return;
    }
    if ledger.unanswered(slot) == 0 {
        let _routes = ledger.close(slot);
    }
}

// Settles each part of the slot, from the last one on where told so, and answers and closes it.
fn finish(ledger: &mut Ledger, sizes: Sizes, slot: u32, parts: u32, backwards: bool)
    requires sized { Sized sizes.window sizes.entries ledger.old }
    requires slot { slot < sizes.window }
    ensures { Sized sizes.window sizes.entries ledger.new }
{
    for i in 0..parts {
        let part = if backwards { parts - 1 - i } else { i };
        settle(ledger, sizes, slot, part);
        answer(ledger, sizes, slot);
    }
    close(ledger, sizes, slot);
}

/// How many transactions are open after so many were served in a full window, each of so many items.
pub fn told(
    alloc: Global,
    window: u32,
    transactions: u32,
    items: u32,
    backwards: bool,
) -> Result<String, NoMemory> {
    if window == 0 {
        return Ok(String::from_str(alloc, "no window")?);
    }
    let sizes = Sizes {
        window,
        entries: 64,
    };
    let holds = policies(alloc)?;
    let mut ledger = empty(alloc, sizes, &holds)?;
    let parts = parts(alloc, items)?;
    for number in 0..window {
        begin(alloc, &mut ledger, sizes, number as u64, parts.as_slice())?;
    }
    for number in 0..transactions {
        finish(&mut ledger, sizes, number % window, items, backwards);
        begin(alloc, &mut ledger, sizes, number as u64, parts.as_slice())?;
    }
    Ok(format!(in alloc; "{} open", ledger.opened())?)
}
