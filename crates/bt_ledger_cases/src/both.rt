//! Each call on both ledgers, and whether they gave the same.
ghost use Rattle.std.specs.Prelude.{◌≡◌, ℕ, ◌<◌, ◌≤◌, ◌^◌, [], Some, length, IsTrue};
ghost use Rattle.bt_demand.specs.Next.{todo};
ghost use Rattle.bt_demand.specs.Parts.{parts_of};
ghost use Rattle.bt_demand.specs.declared.todo.Todo.TheVariants.{Put};
ghost use Rattle.bt_ledger.specs.Calls.{Fits};
ghost use Rattle.bt_ledger.specs.Due.{LeastDue};
ghost use Rattle.bt_ledger.specs.Ledger.{IsGiven, IsPart, Roomy, open_in, part_tree, slot_at};
ghost use Rattle.bt_ledger_cases.specs.Sized.{Sized};

use crate::plain::{Open, Plain};
use bt_chains::Entry;
use bt_demand::routes::Routes;
use bt_demand::todo::Todo;
use bt_ledger::ledger::Ledger;
use bt_ports::NoMemory;

/// How many slots and how many places both have.
#[derive(Clone, Copy)]
pub struct Sizes {
    pub window: u32,
    pub entries: u32,
}

/// A transaction that is to be admitted.
#[derive(Clone, Copy)]
pub struct Arrival {
    pub number: u64,
    pub moment: u64,
    pub items: u64,
    // It is abandoned at once.
    pub abandoned: bool,
}

/// Admits a transaction, and gives it its routes.
pub fn arrive(
    ledger: &mut Ledger,
    plain: &mut Plain,
    sizes: Sizes,
    arrival: Arrival,
    routes: Routes,
    open: Open,
) -> bool
    requires sized { Sized sizes.window sizes.entries ledger.old }
    requires fits { Fits 3 arrival.items (parts_of routes.parts.list) }
    requires few { length routes.parts.list < 2 ^ 32 }
    requires none { routes.counts.list ≡ [] }
    requires room { arrival.items ≤ routes.counts.spare }
    ensures { Sized sizes.window sizes.entries ledger.new }
{
    let Arrival {
        number,
        moment,
        items,
        abandoned,
    } = arrival;
    match ledger.admit(number, moment, items) {
        None => plain.opened() == sizes.window as usize,
        Some(slot) => {
            if abandoned {
                ledger.abandon(slot);
                return plain.open(slot).is_none();
            }
            ledger.give(slot, routes);
            plain.admit(slot, open)
        }
    }
}

/// Whether there is room for each hold of the part, beside those that are booked.
pub fn has_room(ledger: &Ledger, entries: u32, slot: u32, part: u32) -> bool
    requires part { IsPart ledger.now slot part }
    requires entries { ledger.now.entries ≡ entries }
    ensures { IsTrue result → Roomy ledger.now slot part }
{
    ledger.booked() as u64 + ledger.holds_in(slot, part) as u64 <= entries as u64
}

/// Does what is next for a part, where there is one.
pub fn advance(
    ledger: &mut Ledger,
    plain: &mut Plain,
    sizes: Sizes,
    slot: u32,
    part: u32,
    accepted: bool,
) -> Result<bool, NoMemory>
    requires sized { Sized sizes.window sizes.entries ledger.old }
    requires slot { slot < sizes.window }
    ensures { Sized sizes.window sizes.entries ledger.new }
{
    if !ledger.is_given(slot) {
        return Ok(plain.open(slot).is_none());
    }
    if part >= ledger.parts(slot) {
        return Ok(plain.part(slot, part).is_none());
    }
    let next = ledger.todo(slot, part);
    if next != plain.todo(slot, part) {
        return Ok(false);
    }
    if !has_room(ledger, sizes.entries, slot, part) {
        return Ok(true);
    }
    match next {
        Some(Todo::Put { leaf, sink }) => Ok(put(
            ledger, plain, sizes, slot, part, leaf, sink, accepted,
        )),
        Some(Todo::Wait { node }) => {
            ledger.hold(slot, part, node);
            plain.hold(slot, part, node)?;
            Ok(true)
        }
        Some(Todo::Settled { .. }) => Ok(true),
        None => Ok(true),
    }
}

// The leaf that is next gets its outcome.
fn put(
    ledger: &mut Ledger,
    plain: &mut Plain,
    sizes: Sizes,
    slot: u32,
    part: u32,
    leaf: u32,
    sink: u32,
    accepted: bool,
) -> bool
    requires sized { Sized sizes.window sizes.entries ledger.old }
    requires part { IsPart ledger.old slot part }
    requires room { Roomy ledger.old slot part }
    requires next { todo (part_tree ledger.old slot part) ≡ Some (Put leaf sink) }
    ensures { Sized sizes.window sizes.entries ledger.new }
{
    let bytes = ledger.leaf_bytes(slot, part, leaf);
    let same = match plain.part(slot, part) {
        Some(routed) => routed.demand.bytes_of(leaf) == Some(bytes),
        None => false,
    };
    ledger.settle_leaf(slot, part, leaf, accepted);
    plain.settle(slot, part, leaf, accepted);
    same
}

/// Releases the front of a chain.
pub fn release(ledger: &mut Ledger, plain: &mut Plain, sizes: Sizes, node: u32) -> bool
    requires sized { Sized sizes.window sizes.entries ledger.old }
    requires node { node < 3 }
    ensures { Sized sizes.window sizes.entries ledger.new }
{
    match ledger.release(node) {
        None => plain.release(node).is_none(),
        Some(entry) => {
            let below = ledger.todo_below(entry.slot, entry.part, node);
            plain.release(node) == Some(entry) && below == plain_below(plain, entry, node)
        }
    }
}

// What is next below the hold of the entry.
fn plain_below(plain: &Plain, entry: Entry, node: u32) -> Option<Todo> {
    match plain.part(entry.slot, entry.part) {
        Some(routed) => routed.demand.todo_below(node).unwrap_or(None),
        None => None,
    }
}

/// Answers the item that is due, where there is one.
pub fn answer(ledger: &mut Ledger, plain: &mut Plain, sizes: Sizes, slot: u32) -> bool
    requires sized { Sized sizes.window sizes.entries ledger.old }
    requires slot { slot < sizes.window }
    ensures { Sized sizes.window sizes.entries ledger.new }
{
    if !ledger.is_given(slot) {
        return plain.open(slot).is_none();
    }
    let due = ledger.due(slot);
    if !same_open(ledger, plain, slot, due) {
        return false;
    }
    if let Some(item) = due {
        if !same_item(ledger, plain, slot, item) {
            return false;
        }
        ledger.answered(slot, item);
        plain.answered(slot, item);
    }
    true
}

// Whether an open transaction is the same in both.
fn same_open(ledger: &Ledger, plain: &Plain, slot: u32, due: Option<u64>) -> bool
    requires { IsGiven ledger.now slot }
{
    match plain.open(slot) {
        Some(open) => {
            ledger.number(slot) == open.number
                && ledger.unanswered(slot) == open.unanswered()
                && ledger.parts(slot) as usize == open.parts.len()
                && due == open.due()
        }
        None => false,
    }
}

// Whether both say the same of an item of which all parts are settled.
fn same_item(ledger: &Ledger, plain: &Plain, slot: u32, item: u64) -> bool
    requires given { IsGiven ledger.now slot }
    requires due { LeastDue (open_in (slot_at ledger.now slot)) (Some item) }
{
    match plain.open(slot) {
        Some(open) => {
            ledger.verdict_of(slot, item) == open.verdict_of(item)
                && ledger.why(slot, item) == open.why(item)
        }
        None => false,
    }
}

/// Closes the slot, where all its items are answered.
pub fn close(ledger: &mut Ledger, plain: &mut Plain, sizes: Sizes, slot: u32) -> bool
    requires sized { Sized sizes.window sizes.entries ledger.old }
    requires slot { slot < sizes.window }
    ensures { Sized sizes.window sizes.entries ledger.new }
{
    if !ledger.is_given(slot) {
        return plain.open(slot).is_none();
    }
    if ledger.unanswered(slot) > 0 {
        return true;
    }
    let same = plain.parts(slot) == ledger.close(slot).parts.len();
    plain.close(slot);
    same
}

/// Whether both book, hold and release the same.
pub fn same_whole(ledger: &Ledger, plain: &Plain, sizes: Sizes, moment: Option<u64>) -> bool
    requires { Sized sizes.window sizes.entries ledger.now }
{
    ledger.booked() == plain.booked()
        && ledger.opened() as usize == plain.opened()
        && ledger.pool().free() as usize + plain.entries.len() == sizes.entries as usize
        && ledger.ripe(0, moment) == plain.ripe(0, moment)
        && ledger.ripe(1, None) == plain.ripe(1, None)
        && ledger.ripe(2, moment) == plain.ripe(2, moment)
}
