//! The parts of a transaction, each with its demand, and the settings of holds.
ghost use Rattle.std.specs.Prelude.{◌≡◌, ◌≤◌, [], IfOk};

use crate::demand::Demand;
use bt_ports::NoMemory;
use bt_ports::origins::Origins;
use bt_ports::sequence::Sequence;
use std::alloc::Global;

/// When the messages that wait in a hold are released: at so many of them, at so many bytes together, and once the
/// oldest of them waited for so many milliseconds. A condition of 0 is off.
#[derive(Clone, Copy, Debug, PartialEq, Eq)]
pub struct HoldPolicy {
    pub count: u32,
    pub byte_size: u64,
    pub period: u64,
}

/// The policies of the holds, by their numbers.
pub type HoldPolicies = Sequence<HoldPolicy>;

/// One part of a transaction: the items that it comes from, and what it asks for.
#[derive(Drop)]
pub struct Routed {
    pub from: Origins,
    pub demand: Demand,
}

/// What is kept of an item of an open transaction.
#[derive(Clone, Copy, Debug, PartialEq, Eq)]
pub struct Count {
    /// How much is left to do for it: one for each part from it that isn't settled, and one for its answer.
    pub left: u64,
    /// The least lost part from it.
    pub lost: Option<u32>,
    /// Where only its answer is left, the next item of which the same holds, or how many items there are where none does.
    pub next: u64,
}

/// The parts of a transaction in order, and room for one count per item, so that answering takes no memory.
#[derive(Drop)]
pub struct Routes {
    pub parts: Sequence<Routed>,
    pub counts: Sequence<Count>,
}

impl Routes {
    /// No part yet, and room for the counts of so many items.
    pub fn make(alloc: Global, items: usize) -> Result<Routes, NoMemory>
        ensures parts { IfOk result (λ r. r.parts.list ≡ []) }
        ensures counts { IfOk result (λ r. r.counts.list ≡ []) }
        ensures room { IfOk result (λ r. items ≤ r.counts.spare) }
    {
        let mut counts = Sequence::new(alloc);
        counts.reserve(items)?;
        Ok(Routes {
            parts: Sequence::new(alloc),
            counts,
        })
    }
}
