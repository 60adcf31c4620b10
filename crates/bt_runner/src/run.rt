//! A run of a plan.
ghost use Rattle.std.specs.Prelude.{◌≡◌, ◌≤◌, ◌<◌, ◌^◌, IfOk, None, length};
ghost use Rattle.bt_carry.specs.Calls.{ReadsItems};
ghost use Rattle.bt_floor.specs.Calls.{NothingAnswered, NothingPut};
ghost use Rattle.bt_runner.specs.Ran.{HasRun, Unread};

use bt_carry::carry::carry;
use bt_demand::derive::Derive;
use bt_duties::desk::Desk;
use bt_duties::report::Report;
use bt_floor::making::Parts;
use bt_ports::NoMemory;
use bt_ports::outside::{Answerer, Clock, Intake, Sink};
use std::alloc::Global;
use std::sync::Arc;

/// What a run leaves: the intake, the sinks, the answerer and the clock as they stand, and the report.
pub struct Ran<I, K, A, C> {
    pub parts: Parts<I, K, A, C>,
    pub report: Report,
}

/// Runs the plan over these parts, with a window of so many transactions and a pool of so many entries.
///
/// # Errors
///
/// Where there is no memory for the run before anything was taken. The parts are dropped.
pub fn run_plan<I: Intake, K: Sink, A: Answerer, C: Clock, D: Derive>(
    alloc: Global,
    plan: &Arc<D>,
    parts: Parts<I, K, A, C>,
    window: u32,
    entries: u32,
) -> Result<Ran<I, K, A, C>, NoMemory>
    requires window { 1 ≤ window }
    requires wide { 64 ≤ entries }
    requires sinks { length parts.sinks.list ≡ D.sinks plan.now.value }
    requires goes { I.stopped parts.intake ≡ None }
    requires bounded { I.left parts.intake < 2 ^ 56 }
    requires unwritten { NothingPut ⟦<K as Sink>⟧ parts.sinks.list }
    requires unanswered { NothingAnswered ⟦<A as Answerer>⟧ parts.answerer }
    requires unread { Unread ⟦<C as Clock>⟧ parts.clock }
    requires reads { ReadsItems ⟦<D as Derive>⟧ plan.now.value }
    ensures { IfOk result (HasRun ⟦<I as Intake>⟧ ⟦<K as Sink>⟧ ⟦<A as Answerer>⟧ ⟦<C as Clock>⟧ ⟦<D as Derive>⟧ plan.now.value parts) }
{
    let shared = match plan.clone() {
        Ok(shared) => shared,
        Err(_) => return Err(NoMemory),
    };
    match Desk::make(alloc, shared, parts, 1, window, entries) {
        Ok(desk) => {
            let mut desk = desk;
            carry(&**plan, &mut desk);
            let report = desk.report();
            let parts = desk.into_parts();
            Ok(Ran { parts, report })
        }
        Err(_) => Err(NoMemory),
    }
}
