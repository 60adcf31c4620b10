//! Settling a part and releasing a hold, each of which may lead to the other.
ghost use Rattle.std.specs.Prelude.{◌≡◌, ℕ, ◌+◌, ◌<◌, ◌≤◌, [], length, MatchOption, None, Some, true};
ghost use Rattle.bt_demand.specs.Find.{begun, below};
ghost use Rattle.bt_demand.specs.Flushing.{Still};
ghost use Rattle.bt_demand.specs.Next.{todo};
ghost use Rattle.bt_demand.specs.Reached.{Reach, NextIn};
ghost use Rattle.bt_ledger.specs.Due.{LeastDue};
ghost use Rattle.bt_ledger.specs.Ledger.{slot_at, is_given, part_tree, IsPart, IsGiven, Roomy, open_in, chain_at};
ghost use Rattle.bt_moves.specs.Moves.{LateKeeps, LateKeepsBut, left_to_do, Keeps, KeepsBut, StepAt, Answering, RipensNone, BeginsNone, BeginsBut, OutStays};
ghost use Rattle.bt_moves.specs.Resting.{AllSettled, AllSettledBut, AtRest};
ghost use Rattle.bt_sound.specs.Owned.{BatchFits, ReleasesRise};
ghost use Rattle.bt_sound.specs.Turns.{AnswererAdds, CallsDue, SameFrom, Turned};

use crate::floor::Floor;
use bt_demand::derive::Derive;
use bt_demand::todo::Todo;
use bt_ledger::reason::Reason;
use bt_ports::outside::{Answerer, Clock, Intake, Sink};

/// A leaf to put.
#[derive(Clone, Copy)]
pub struct Leaf {
    pub leaf: u32,
    pub sink: u32,
}

impl<I: Intake, K: Sink, A: Answerer, C: Clock, D: Derive> Floor<I, K, A, C, D> {
    /// Answers what is due, in rising order, and closes the slot where all is answered.
    pub(crate) fn finish_part(&mut self, slot: u32)
        requires given { IsGiven self.old.ledger slot }
        ensures outs { OutStays self.old.ledger self.new.ledger }
        ensures calm { RipensNone self.old.ledger self.new.ledger }
        ensures fresh { BeginsNone self.old.ledger self.new.ledger }
        ensures outside { self.new.outside ≡ self.old.outside }
        ensures rest { AtRest self.new.ledger slot }
        ensures others { (p : ℕ) → Still (todo (part_tree self.old.ledger slot p)) → KeepsBut slot p self.old.ledger self.new.ledger }
        ensures still { (p : ℕ) → Still (todo (part_tree self.old.ledger slot p)) → Still (todo (part_tree self.new.ledger slot p)) }
        ensures no_more { left_to_do self.new.ledger ≤ left_to_do self.old.ledger }
        ensures late { (n : ℕ) → LateKeeps n self.old.ledger self.new.ledger }
        ensures settled { AllSettled self.old.ledger → AllSettled self.new.ledger }
        ensures releases { self.new.releases ≡ self.old.releases }
        ensures sinks { self.new.sinks ≡ self.old.sinks }
        ensures adds { AnswererAdds ⟦<A as Answerer>⟧ (CallsDue (open_in (slot_at self.old.ledger slot))) self.old.answerer self.new.answerer }
        ensures same { is_given (slot_at self.new.ledger slot) ≡ true → SameFrom (slot_at self.old.ledger slot) (slot_at self.new.ledger slot) }
        ensures policies { self.new.ledger.policies ≡ self.old.ledger.policies }
    {
        self.answer_due(slot);
        if self.unanswered(slot) == 0 {
            self.close(slot);
        }
    }

    /// Answers what is due, in rising order.
    fn answer_due(&mut self, slot: u32)
        requires { IsGiven self.old.ledger slot }
        ensures answering { Answering slot self.old.ledger self.new.ledger }
        ensures none { LeastDue (open_in (slot_at self.new.ledger slot)) None }
        ensures releases { self.new.releases ≡ self.old.releases }
        ensures outside { self.new.outside ≡ self.old.outside }
        ensures sinks { self.new.sinks ≡ self.old.sinks }
        ensures adds { AnswererAdds ⟦<A as Answerer>⟧ (CallsDue (open_in (slot_at self.old.ledger slot))) self.old.answerer self.new.answerer }
    {
        while let Some(item) = self.due(slot) {
            self.answer(slot, item);
        }
    }

    /// The leaf that is next below a hold that is asked and released, and None where none is.
    fn next_below(&self, slot: u32, part: u32, node: u32) -> Option<Leaf>
        requires part { IsPart self.now.ledger slot part }
        requires reach { Reach node (part_tree self.now.ledger slot part) }
        ensures { MatchOption result ((l k : ℕ) → NextIn l k (below node (part_tree self.now.ledger slot part)) → ⊥) (λ x. NextIn x.leaf x.sink (below node (part_tree self.now.ledger slot part))) }
    {
        match self.ledger.todo_below(slot, part, node) {
            Some(Todo::Put { leaf, sink }) => Some(Leaf { leaf, sink }),
            _ => None,
        }
    }

    /// Puts what a released hold asks for, under the batch number of its release.
    fn settle_child(&mut self, slot: u32, part: u32, node: u32, batch: u64)
        requires part { IsPart self.old.ledger slot part }
        requires begun { begun (part_tree self.old.ledger slot part) ≡ true }
        requires reach { Reach node (part_tree self.old.ledger slot part) }
        requires settled { AllSettledBut node slot part self.old.ledger }
        requires batch { BatchFits self.old.releases (Some node) batch }
        ensures settled { AllSettled self.new.ledger }
        ensures releases { self.new.releases ≡ self.old.releases }
        ensures calm { RipensNone self.old.ledger self.new.ledger }
        ensures outside { self.new.outside ≡ self.old.outside }
        ensures part { IsPart self.new.ledger slot part }
        ensures step { StepAt slot part self.old.ledger self.new.ledger }
        ensures no_more { left_to_do self.new.ledger ≤ left_to_do self.old.ledger }
        ensures late { (n : ℕ) → LateKeeps n self.old.ledger self.new.ledger }
    {
        while let Some(next) = self.next_below(slot, part, node) {
            let _accepted = self.put(slot, part, next.leaf, next.sink, batch);
        }
        self.in_order();
    }

    /// Goes on with a part as far as it goes.
    #[cycle(settling)]
    pub fn settle_part(&mut self, slot: u32, part: u32)
        requires part { IsPart self.old.ledger slot part }
        requires room { Roomy self.old.ledger slot part }
        requires settled { AllSettled self.old.ledger }
        ensures settled { AllSettled self.new.ledger }
        ensures rise { ReleasesRise self.old.releases self.new.releases }
        ensures here { Still (todo (part_tree self.new.ledger slot part)) }
        ensures rest { AtRest self.new.ledger slot }
        ensures others { Keeps self.old.ledger self.new.ledger }
        ensures fresh { BeginsBut slot part self.old.ledger self.new.ledger }
        ensures outs { OutStays self.old.ledger self.new.ledger }
        ensures calm { RipensNone self.old.ledger self.new.ledger }
        ensures outside { self.new.outside ≡ self.old.outside }
        ensures no_more { left_to_do self.new.ledger ≤ left_to_do self.old.ledger }
        ensures late { begun (part_tree self.old.ledger slot part) ≡ true → (n : ℕ) → LateKeeps n self.old.ledger self.new.ledger }
        ensures turn { self.old.ledger.policies ≡ [] → AtRest self.old.ledger slot → Turned ⟦<K as Sink>⟧ ⟦<A as Answerer>⟧ slot part (part + 1) self.old self.new }
    {
        while self.is_given(slot) {
            match self.next(slot, part) {
                Some(Todo::Put { leaf, sink }) => {
                    let _accepted = self.put(slot, part, leaf, sink, 0);
                }
                Some(Todo::Wait { node }) => {
                    self.wait(slot, part, node);
                    match self.ripe(node) {
                        Some(why) => self.release(node, why),
                        None => {}
                    }
                }
                _ => {
                    self.finish_part(slot);
                    return;
                }
            }
        }
    }

    /// Releases all that waits in a chain, under one batch number.
    #[cycle(settling)]
    pub fn release(&mut self, node: u32, why: Reason)
        requires known { node < length self.old.ledger.policies }
        requires settled { AllSettled self.old.ledger }
        ensures settled { AllSettled self.new.ledger }
        ensures rise { ReleasesRise self.old.releases self.new.releases }
        ensures others { Keeps self.old.ledger self.new.ledger }
        ensures fresh { BeginsNone self.old.ledger self.new.ledger }
        ensures outs { OutStays self.old.ledger self.new.ledger }
        ensures calm { RipensNone self.old.ledger self.new.ledger }
        ensures outside { self.new.outside ≡ self.old.outside }
        ensures no_more { left_to_do self.new.ledger ≤ left_to_do self.old.ledger }
        ensures late { (n : ℕ) → n ≤ node → LateKeepsBut node n self.old.ledger self.new.ledger }
        ensures empties { chain_at self.new.ledger node ≡ [] }
    {
        let batch = self.begin_release(node, why);
        while let Some(entry) = self.pop(node) {
            self.settle_child(entry.slot, entry.part, node, batch);
            self.settle_part(entry.slot, entry.part);
        }
    }
}
