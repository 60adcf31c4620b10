//! Making a floor, and spending it.
ghost use Rattle.std.specs.Prelude.{◌≡◌, ◌<◌, ◌≤◌, ◌^◌, IfErr, IfOk, None, length, replicate};
ghost use Rattle.bt_floor.specs.Calls.{Begins, NothingAnswered, NothingPut};
ghost use Rattle.bt_ledger.specs.Kept.{empty_ledger};

use crate::floor::Floor;
use bt_chains::Pool;
use bt_demand::derive::Derive;
use bt_ledger::ledger::Ledger;
use bt_ports::NoMemory;
use bt_ports::outside::{Answerer, Clock, Intake, Sink};
use bt_ports::parts::Sinks;
use bt_ports::sequence::Sequence;
use bt_sound::counts::Counts;
use std::alloc::Global;
use std::sync::Arc;

/// The objects of the outside over which a desk works.
#[derive(Drop)]
pub struct Parts<I, K, A, C> {
    pub intake: I,
    pub sinks: Sinks<K>,
    pub answerer: A,
    pub clock: C,
}

impl<I: Intake, K: Sink, A: Answerer, C: Clock, D: Derive> Floor<I, K, A, C, D> {
    /// A floor over these parts, on which nothing was taken, with so many slots and a pool of so many entries. It takes
    /// all memory that settling needs.
    ///
    /// The intake may have given batches before. The run is of those that it gives from now on.
    ///
    /// # Errors
    ///
    /// Where there is no memory, and the parts are handed back as they were.
    pub fn make(
        alloc: Global,
        plan: Arc<D>,
        parts: Parts<I, K, A, C>,
        window: u32,
        entries: u32,
    ) -> Result<Self, (NoMemory, Parts<I, K, A, C>)>
        requires wide { 64 ≤ entries }
        requires sinks { length parts.sinks.list ≡ D.sinks plan.value }
        requires goes { I.stopped parts.intake ≡ None }
        requires bounded { I.left parts.intake < 2 ^ 56 }
        requires unwritten { NothingPut ⟦<K as Sink>⟧ parts.sinks.list }
        requires unanswered { NothingAnswered ⟦<A as Answerer>⟧ parts.answerer }
        ensures begins { IfOk result (λ f. Begins f plan.value (D.policies plan.value) parts window entries) }
        ensures parts { IfErr result (λ e. e.1 ≡ parts) }
    {
        match take_room(alloc, &*plan, window, entries) {
            Ok(room) => {
                let Room { ledger, releases } = room;
                let Parts {
                    intake,
                    sinks,
                    answerer,
                    clock,
                } = parts;
                Ok(Floor {
                    ledger,
                    sinks: sinks.into_vec(),
                    answerer,
                    releases,
                    counts: Counts::none(),
                    entries,
                    plan,
                    intake,
                    clock,
                    taken: 0,
                    ending: None,
                })
            }
            Err(_) => Err((NoMemory, parts)),
        }
    }

    /// Spends the floor and hands back its parts. It takes no memory.
    pub fn into_parts(self) -> Parts<I, K, A, C>
        ensures intake { result.intake ≡ self.outside.intake }
        ensures sinks { result.sinks.list ≡ self.sinks }
        ensures answerer { result.answerer ≡ self.answerer }
        ensures clock { result.clock ≡ self.outside.clock }
    {
        let Floor {
            intake,
            sinks,
            answerer,
            clock,
            ..
        } = self;
        Parts {
            intake,
            sinks: Sequence::from_vec(sinks),
            answerer,
            clock,
        }
    }
}

/// What a floor takes memory for.
struct Room {
    ledger: Ledger,
    releases: Vec<u64>,
}

fn take_room<D: Derive>(
    alloc: Global,
    plan: &D,
    window: u32,
    entries: u32,
) -> Result<Room, NoMemory>
    ensures ledger { IfOk result (λ r. r.ledger ≡ empty_ledger window (D.policies plan.now) entries) }
    ensures releases { IfOk result (λ r. r.releases.items ≡ replicate (length (D.policies plan.now)) 0) }
    ensures few { IfOk result (λ r. length (D.policies plan.now) < 2 ^ 32) }
{
    let holds = plan.holds();
    if holds.len() > u32::MAX as usize {
        return Err(NoMemory);
    }
    let pool = Pool::make(alloc, entries, holds.len() as u32)?;
    match Ledger::make(alloc, window, pool, holds) {
        Ok(ledger) => Ok(Room {
            ledger,
            releases: vec![in alloc; 0u64; holds.len()]?,
        }),
        Err(_) => Err(NoMemory),
    }
}
