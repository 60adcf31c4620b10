//! The desk's calls.
ghost use Rattle.std.specs.Prelude.{◌≡◌, ◌+◌, ◌≢◌, ℕ, ◌<◌, ◌≤◌, ◌^◌, IfErr, IfOk, IsSome, None, [], eqb, false, length, not, replicate, true, ◌⊎◌};
ghost use Rattle.std.specs.List.{list_any};
ghost use Rattle.bt_demand.specs.Parts.{PartsFit, parts_of};
ghost use Rattle.bt_duties.specs.Calls.{Admits, NothingSettled, WasFull};
ghost use Rattle.bt_duties.specs.Duties.{AllIdle, duty_at, idle, items_out, number_out};
ghost use Rattle.bt_floor.specs.Calls.{Begins, NothingAnswered, NothingPut};
ghost use Rattle.bt_ledger.specs.Ledger.{opened};
ghost use Rattle.bt_duties.specs.Stands.{IsStanding};
ghost use Rattle.bt_moves.specs.Resting.{Emptied};
ghost use Rattle.bt_sound.specs.Counting.{capped};
ghost use Rattle.bt_sound.specs.Transactions.{Derived};
ghost use Rattle.bt_sound.specs.Turns.{DeliveredInTurn, RefusedInTurn};

use crate::admit::{Admit, answer_of};
use crate::duty::Duty;
use crate::report::Report;
use bt_demand::derive::Derive;
use bt_demand::routes::Routes;
use bt_floor::floor::Floor;
use bt_floor::making::Parts;
use bt_floor::taking::Taken;
use bt_ledger::reason::Reason;
use bt_ports::NoMemory;
use bt_ports::outside::{Answerer, Clock, Intake, Sink};
use bt_sound::counts::Ending;
use std::alloc::{AllocError, Global};
use std::marker::Model;
use std::sync::Arc;

/// Intake, ledger, sinks and answers of a run as one state, for any number of duties.
///
/// A desk isn't dropped: it is spent by `into_parts`, which needs that the run was finished or that nothing was taken.
pub struct Desk<I: Intake, K: Sink, A: Answerer, C: Clock, D: Derive> {
    floor: Floor<I, K, A, C, D>,
    duties: Vec<Duty>,
    window: u32,
    finished: bool,
}

impl<I: Intake, K: Sink, A: Answerer, C: Clock, D: Derive> Model for Desk<I, K, A, C, D> {
    ghost use Rattle.bt_duties.specs.DeskView.{DeskView};
    ghost use Rattle.bt_duties.specs.Standing.{Standing};
    ghost use Rattle.bt_ledger.specs.contracts.ledger.Ledger.{the_row};
    ghost use Rattle.std.specs.Coded.{codes};

    ghost Value = { DeskView I K A C D };

    ghost coded = { Prim.hlevel (codes, the_row.coded) };

    ghost use Rattle.bt_duties.specs.Inside.{shown};

    ghost view = { shown };

    ghost invariant = { λ d. Standing (shown d) };
}

impl<I: Intake, K: Sink, A: Answerer, C: Clock, D: Derive> Desk<I, K, A, C, D> {
    /// A desk over these parts, on which nothing was taken, for so many duties, with a window of so many transactions and
    /// a pool of so many entries. It takes all memory that settling needs.
    ///
    /// The intake may have given batches before. The run is of those that it gives from now on.
    ///
    /// # Errors
    ///
    /// Where there is no memory, and the parts are handed back as they were.
    pub fn make(
        alloc: Global,
        plan: Arc<D>,
        parts: Parts<I, K, A, C>,
        duties: u32,
        window: u32,
        entries: u32,
    ) -> Result<Self, (NoMemory, Parts<I, K, A, C>)>
        requires duties { 1 ≤ duties }
        requires window { 1 ≤ window }
        requires wide { 64 ≤ entries }
        requires sinks { length parts.sinks.list ≡ D.sinks plan.value }
        requires goes { I.stopped parts.intake ≡ None }
        requires bounded { I.left parts.intake < 2 ^ 56 }
        requires unwritten { NothingPut ⟦<K as Sink>⟧ parts.sinks.list }
        requires unanswered { NothingAnswered ⟦<A as Answerer>⟧ parts.answerer }
        ensures begins { IfOk result (λ d. Begins d.floor plan.value (D.policies plan.value) parts window entries) }
        ensures idle { IfOk result (λ d. d.duties ≡ replicate duties idle) }
        ensures window { IfOk result (λ d. d.window ≡ window) }
        ensures parts { IfErr result (λ e. e.1 ≡ parts) }
    {
        match idle_duties(alloc, duties) {
            Ok(duties) => match Floor::make(alloc, plan, parts, window, entries) {
                Ok(floor) => Ok(Desk {
                    floor,
                    duties,
                    window,
                    finished: false,
                }),
                Err(back) => Err(back),
            },
            Err(_) => Err((NoMemory, parts)),
        }
    }

    /// Takes the next transaction for a duty that is idle, with the clock's next reading as its moment, or finds how the
    /// run ends. Transactions are numbered from 1.
    ///
    /// Where the window is full it answers `Full` while some duty is out, and nothing changes; else it flushes first.
    /// Each chain whose oldest entry waited for its hold's period at the transaction's moment is released. Where the plan
    /// has no holds, no record is put and nothing is answered. Only the intake may take memory here, and `NoMemory` comes
    /// exactly where it found none.
    pub fn admit(&mut self, duty: u32) -> Admit
        requires duty { duty < length self.old.duties }
        requires idle { (duty_at self.old.duties duty).number ≡ 0 }
        requires goes { self.old.floor.outside.ending ≡ None }
        ensures admits { Admits ⟦<I as Intake>⟧ ⟦<C as Clock>⟧ duty result self.old self.new }
        ensures many { length self.new.duties ≡ length self.old.duties }
        ensures window { self.new.window ≡ self.old.window }
        ensures stands { IsStanding ⟦<I as Intake>⟧ ⟦<K as Sink>⟧ ⟦<A as Answerer>⟧ ⟦<C as Clock>⟧ ⟦<D as Derive>⟧ self.new }
        ensures unheld { self.old.floor.ledger.policies ≡ [] → NothingSettled self.old.floor self.new.floor }
    {
        if !self.make_place() {
            self.stands();
            return Admit::Full;
        }
        let answer = self.take(duty);
        self.stands();
        answer
    }

    // A law of the desk: how it stands between two calls.
    fn stands(&self)
        ensures { IsStanding ⟦<I as Intake>⟧ ⟦<K as Sink>⟧ ⟦<A as Answerer>⟧ ⟦<C as Clock>⟧ ⟦<D as Derive>⟧ self.now }
    {
        self.floor.in_order();
        self.floor.sound();
    }

    // Makes sure that a slot is free, by a flush where the window is full and no duty is out. It gives false where one is.
    fn make_place(&mut self) -> bool
        ensures full { result ≡ false → WasFull self.old self.new }
        ensures place { result ≡ true → opened self.new.floor.ledger < length self.new.floor.ledger.slots }
        ensures room { result ≡ true → opened self.new.floor.ledger < self.new.window }
        ensures same { opened self.old.floor.ledger < self.old.window → self.new ≡ self.old }
        ensures flushed { self.old.window ≤ opened self.old.floor.ledger → result ≡ true → Emptied self.new.floor.ledger }
        ensures duties { self.new.duties ≡ self.old.duties }
        ensures window { self.new.window ≡ self.old.window }
        ensures outside { self.new.floor.outside ≡ self.old.floor.outside }
        ensures unheld { self.old.floor.ledger.policies ≡ [] → self.new.floor ≡ self.old.floor }
    {
        if self.floor.opened() < self.window {
            return true;
        }
        if is_out(&self.duties) {
            return false;
        }
        self.floor.flush_all(Reason::Stall);
        true
    }

    // Takes the next transaction, for which a slot is free.
    fn take(&mut self, duty: u32) -> Admit
        requires duty { duty < length self.old.duties }
        requires idle { (duty_at self.old.duties duty).number ≡ 0 }
        requires goes { self.old.floor.outside.ending ≡ None }
        requires place { opened self.old.floor.ledger < length self.old.floor.ledger.slots }
        ensures many { length self.new.duties ≡ length self.old.duties }
        ensures window { self.new.window ≡ self.old.window }
        ensures admits { Admits ⟦<I as Intake>⟧ ⟦<C as Clock>⟧ duty result self.old self.new }
        ensures unheld { self.old.floor.ledger.policies ≡ [] → NothingSettled self.old.floor self.new.floor }
    {
        match self.floor.take() {
            Ok(taken) => {
                let Taken { slot, txn } = taken;
                self.duties[duty as usize] = Duty {
                    number: txn.number,
                    items: txn.items.len() as u64,
                    slot,
                };
                self.floor.release_past(txn.moment);
                Admit::Job(txn)
            }
            Err(ending) => answer_of(ending),
        }
    }

    /// Delivers what became of a duty's transaction: its parts, which are those that the plan derives for it, or that
    /// there was no memory for them. Afterwards the duty is idle.
    ///
    /// The parts are settled in order, as far as they go. Items are refused for want of memory exactly where there was none
    /// for the parts, and then all are, in order, and no record is put. Where the plan has no holds, the records and answers
    /// of the call are those of the transaction alone, by its parts in order, and the records of a part by its leaves in
    /// order. Takes no memory.
    pub fn deliver(&mut self, duty: u32, routes: Result<Routes, NoMemory>)
        requires duty { duty < length self.old.duties }
        requires out { (duty_at self.old.duties duty).number ≢ 0 }
        requires fits { IfOk routes (λ r. PartsFit (D.sinks self.old.floor.outside.plan) (length (D.policies self.old.floor.outside.plan)) (duty_at self.old.duties duty).items (parts_of r.parts.list)) }
        requires few { IfOk routes (λ r. length r.parts.list < 2 ^ 32) }
        requires none { IfOk routes (λ r. r.counts.list ≡ []) }
        requires room { IfOk routes (λ r. (duty_at self.old.duties duty).items ≤ r.counts.spare) }
        requires derived { IfOk routes (λ r. Derived ⟦<I as Intake>⟧ ⟦<C as Clock>⟧ ⟦<D as Derive>⟧ self.old.floor.outside (duty_at self.old.duties duty).number (parts_of r.parts.list)) }
        ensures many { length self.new.duties ≡ length self.old.duties }
        ensures idle { duty_at self.new.duties duty ≡ idle }
        ensures others { (j : ℕ) → j ≢ duty → duty_at self.new.duties j ≡ duty_at self.old.duties j }
        ensures kept { IfOk routes (λ _. self.new.floor.outside ≡ self.old.floor.outside) }
        ensures refused { IfErr routes (λ _. self.new.floor.outside ≡ record self.old.floor.outside { refused_memory = capped (self.old.floor.outside.refused_memory + (duty_at self.old.duties duty).items) }) }
        ensures window { self.new.window ≡ self.old.window }
        ensures stands { IsStanding ⟦<I as Intake>⟧ ⟦<K as Sink>⟧ ⟦<A as Answerer>⟧ ⟦<C as Clock>⟧ ⟦<D as Derive>⟧ self.new }
        ensures refusal { IfErr routes (λ _. RefusedInTurn ⟦<A as Answerer>⟧ (duty_at self.old.duties duty).number (duty_at self.old.duties duty).items self.old.floor self.new.floor) }
        ensures turn { IfOk routes (λ r. self.old.floor.ledger.policies ≡ [] → DeliveredInTurn ⟦<K as Sink>⟧ ⟦<A as Answerer>⟧ (duty_at self.old.duties duty).number (parts_of r.parts.list) self.old.floor self.new.floor) }
    {
        let Duty { items, slot, .. } = entry(&self.duties, duty);
        self.floor.settle(slot, items, routes);
        self.duties[duty as usize] = Duty {
            number: 0,
            items: 0,
            slot: 0,
        };
        self.stands();
    }

    /// Closes a run that has ended, while no duty is out. All that waits is released, and all items of all taken
    /// transactions are then answered. Where the plan has no holds, no record is put and nothing is answered. Takes no
    /// memory.
    pub fn finish(&mut self)
        requires ended { IsSome self.old.floor.outside.ending }
        requires idle { AllIdle self.old.duties }
        ensures finished { self.new.finished ≡ true }
        ensures duties { self.new.duties ≡ self.old.duties }
        ensures outside { self.new.floor.outside ≡ self.old.floor.outside }
        ensures window { self.new.window ≡ self.old.window }
        ensures stands { IsStanding ⟦<I as Intake>⟧ ⟦<K as Sink>⟧ ⟦<A as Answerer>⟧ ⟦<C as Clock>⟧ ⟦<D as Derive>⟧ self.new }
        ensures unheld { self.old.floor.ledger.policies ≡ [] → NothingSettled self.old.floor self.new.floor }
    {
        self.floor.flush_all(Reason::End);
        self.finished = true;
        self.stands();
    }

    /// How the intake ended, and None while it goes on.
    pub fn ending(&self) -> Option<Ending>
        ensures { result ≡ self.now.floor.outside.ending }
    {
        self.floor.ending()
    }

    /// The number of the transaction that the duty is out with, and None exactly where it is idle.
    pub fn out_at(&self, duty: u32) -> Option<u64>
        requires { duty < length self.now.duties }
        ensures { result ≡ number_out (duty_at self.now.duties duty) }
    {
        let Duty { number, .. } = self.duties[duty as usize];
        if number == 0 { None } else { Some(number) }
    }

    /// How many items that transaction has, and None exactly where the duty is idle.
    pub fn items_at(&self, duty: u32) -> Option<u64>
        requires { duty < length self.now.duties }
        ensures { result ≡ items_out (duty_at self.now.duties duty) }
    {
        let Duty { number, items, .. } = self.duties[duty as usize];
        if number == 0 { None } else { Some(items) }
    }

    /// What the run reports so far.
    pub fn report(&self) -> Report
        ensures taken { result.taken ≡ self.now.floor.outside.taken }
        ensures counts { result.counts ≡ self.now.floor.counts }
        ensures ending { result.ending ≡ self.now.floor.outside.ending }
        ensures stands { IsStanding ⟦<I as Intake>⟧ ⟦<K as Sink>⟧ ⟦<A as Answerer>⟧ ⟦<C as Clock>⟧ ⟦<D as Derive>⟧ self.now }
    {
        self.stands();
        Report {
            taken: self.floor.taken(),
            counts: self.floor.counts(),
            ending: self.floor.ending(),
        }
    }

    /// Spends the desk and hands back its parts. Takes no memory.
    pub fn into_parts(self) -> Parts<I, K, A, C>
        requires done { (self.finished ≡ true) ⊎ (self.floor.outside.taken ≡ 0) }
        ensures intake { result.intake ≡ self.floor.outside.intake }
        ensures sinks { result.sinks.list ≡ self.floor.sinks }
        ensures answerer { result.answerer ≡ self.floor.answerer }
        ensures clock { result.clock ≡ self.floor.outside.clock }
        ensures stands { IsStanding ⟦<I as Intake>⟧ ⟦<K as Sink>⟧ ⟦<A as Answerer>⟧ ⟦<C as Clock>⟧ ⟦<D as Derive>⟧ self }
    {
        self.stands();
        let Desk {
            floor,
            duties: _,
            window: _,
            finished: _,
        } = self;
        floor.into_parts()
    }
}

fn idle_duties(alloc: Global, duties: u32) -> Result<Vec<Duty>, AllocError>
    ensures { IfOk result (λ v. v.items ≡ replicate duties idle) }
{
    let duty = Duty {
        number: 0,
        items: 0,
        slot: 0,
    };
    vec![in alloc; duty; duties as usize]
}

/// Whether some duty is out.
fn is_out(duties: &Vec<Duty>) -> bool
    ensures { result ≡ list_any (λ (d : _). not (eqb d.number 0)) duties.now.items }
{
    duties.iter().any(|duty| duty.number != 0)
}

/// The entry of a duty.
fn entry(duties: &Vec<Duty>, duty: u32) -> Duty
    requires { duty < length duties.now.items }
    ensures { result ≡ duty_at duties.now.items duty }
{
    duties[duty as usize]
}
