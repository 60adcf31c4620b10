//! The moves: what is put, held, released, answered, given and closed.
ghost use Rattle.std.specs.Prelude.{◌≡◌, ℕ, ◌+◌, ◌<◌, ◌≤◌, ◌^◌, [], length, set, get_or, MatchOption, Some, true};
ghost use Rattle.bt_demand.specs.Find.{begun};
ghost use Rattle.bt_demand.specs.Next.{todo};
ghost use Rattle.bt_demand.specs.Parts.{PartsFit, parts_of};
ghost use Rattle.bt_demand.specs.Reached.{Reach};
ghost use Rattle.bt_demand.specs.Recorded.{untried};
ghost use Rattle.bt_demand.specs.Steps.{settle, state_for};
ghost use Rattle.bt_demand.specs.WellFormed.{nodes};
ghost use Rattle.bt_demand.specs.declared.todo.Todo.TheVariants.{Wait};
ghost use Rattle.bt_ledger.specs.Calls.{IsOut};
ghost use Rattle.bt_ledger.specs.Due.{IsDue, LeastDue, unanswered};
ghost use Rattle.bt_ledger.specs.Ledger.{items_in, number_in, slot_at, part_tree, IsPart, IsGiven, Roomy, with_part, with_slot, open_in, answered_in};
ghost use Rattle.bt_ledger.specs.Verdicts.{verdict_of};
ghost use Rattle.bt_ledger.specs.declared.slot.Slot.TheVariants.{Free, Given};
ghost use Rattle.bt_moves.specs.Moves.{LateKeeps, PopKeepsLate, Popped, left_to_do, StepAt, Answering, RipensNone, RipensBut, BeginsNone};
ghost use Rattle.bt_moves.specs.Resting.{AllSettled, PopSettles};
ghost use Rattle.bt_ports.specs.Faults.{one_more};
ghost use Rattle.bt_sound.specs.Counting.{answer_with, count_with};
ghost use Rattle.bt_sound.specs.Owned.{BatchFits, PutsAs, ReleasesRise};
ghost use Rattle.bt_sound.specs.Records.{PutAt};
ghost use Rattle.bt_sound.specs.Transactions.{Derived, given_open};
ghost use Rattle.bt_sound.specs.Turns.{AnswererAdds, AtMostOne, CallsFor, SinksAdd};

use crate::floor::Floor;
use bt_chains::Entry;
use bt_demand::derive::Derive;
use bt_demand::routes::Routes;
use bt_ledger::ledger::Ledger;
use bt_ledger::reason::Reason;
use bt_ports::outside::{Answerer, Clock, Intake, Sink};
use bt_ports::parts::{Cause, Verdict};
use bt_sound::counts::Counts;

impl<I: Intake, K: Sink, A: Answerer, C: Clock, D: Derive> Floor<I, K, A, C, D> {
    /// Puts the record of the leaf that is next to its sink, and writes down what came of it. The batch number is 0 outside
    /// the holds, and below one the number of one of its releases.
    pub(crate) fn put(&mut self, slot: u32, part: u32, leaf: u32, sink: u32, batch: u64) -> bool
        requires part { IsPart self.old.ledger slot part }
        requires puts { PutsAs self.old.releases leaf sink batch (part_tree self.old.ledger slot part) }
        requires room { Roomy self.old.ledger slot part }
        ensures ledger { self.new.ledger ≡ with_part self.old.ledger slot part (settle leaf (state_for result) (part_tree self.old.ledger slot part)) }
        ensures releases { self.new.releases ≡ self.old.releases }
        ensures outside { self.new.outside ≡ self.old.outside }
        ensures adds { SinksAdd ⟦<K as Sink>⟧ (AtMostOne (number_in (slot_at self.old.ledger slot)) part leaf) self.old.sinks self.new.sinks }
        ensures plain { self.old.ledger.policies ≡ [] → nodes (untried (part_tree self.old.ledger slot part)) ≡ [] }
        ensures answerer { self.new.answerer ≡ self.old.answerer }
    {
        let number = self.ledger.number(slot);
        let bytes = self.ledger.leaf_bytes(slot, part, leaf);
        let accepted = write(&mut self.sinks, sink, number, part, leaf, batch, bytes);
        self.ledger.settle_leaf(slot, part, leaf, accepted);
        accepted
    }

    /// The hold that is next begins to wait.
    pub(crate) fn wait(&mut self, slot: u32, part: u32, node: u32)
        requires part { IsPart self.old.ledger slot part }
        requires next { todo (part_tree self.old.ledger slot part) ≡ Some (Wait node) }
        requires room { Roomy self.old.ledger slot part }
        ensures step { StepAt slot part self.old.ledger self.new.ledger }
        ensures falls { left_to_do self.new.ledger < left_to_do self.old.ledger }
        ensures late { begun (part_tree self.old.ledger slot part) ≡ true → (n : ℕ) → LateKeeps n self.old.ledger self.new.ledger }
        ensures calm { RipensBut node self.old.ledger self.new.ledger }
        ensures settled { AllSettled self.old.ledger → AllSettled self.new.ledger }
        ensures releases { self.new.releases ≡ self.old.releases }
        ensures outside { self.new.outside ≡ self.old.outside }
    {
        let _booked = self.ledger.booked();
        self.ledger.hold(slot, part, node);
    }

    /// Takes the front of a chain out of it, and releases its hold.
    pub(crate) fn pop(&mut self, node: u32) -> Option<Entry>
        requires { node < length self.old.ledger.policies }
        ensures popped { Popped self.old.ledger self.new.ledger result }
        ensures late { PopKeepsLate node self.old.ledger self.new.ledger result }
        ensures reach { MatchOption result (0 ≤ 0) (λ e. Reach node (part_tree self.new.ledger e.slot e.part)) }
        ensures calm { RipensNone self.old.ledger self.new.ledger }
        ensures fresh { BeginsNone self.old.ledger self.new.ledger }
        ensures settled { AllSettled self.old.ledger → PopSettles node self.new.ledger result }
        ensures releases { self.new.releases ≡ self.old.releases }
        ensures outside { self.new.outside ≡ self.old.outside }
    {
        let _booked = self.ledger.booked();
        self.ledger.release(node)
    }

    /// Answers an item that is due, with the verdict of its parts.
    pub(crate) fn answer(&mut self, slot: u32, item: u64)
        requires given { IsGiven self.old.ledger slot }
        requires due { LeastDue (open_in (slot_at self.old.ledger slot)) (Some item) }
        ensures answering { Answering slot self.old.ledger self.new.ledger }
        ensures falls { unanswered (answered_in (slot_at self.new.ledger slot)) < unanswered (answered_in (slot_at self.old.ledger slot)) }
        ensures releases { self.new.releases ≡ self.old.releases }
        ensures outside { self.new.outside ≡ self.old.outside }
        ensures sinks { self.new.sinks ≡ self.old.sinks }
        ensures adds { AnswererAdds ⟦<A as Answerer>⟧ (CallsFor (number_in (slot_at self.old.ledger slot)) item) self.old.answerer self.new.answerer }
        ensures dues { (i : ℕ) → IsDue (open_in (slot_at self.new.ledger slot)) i → IsDue (open_in (slot_at self.old.ledger slot)) i }
        ensures done { IsDue (open_in (slot_at self.new.ledger slot)) item → ⊥ }
    {
        let number = self.ledger.number(slot);
        let verdict = verdict_on(&self.ledger, slot, item);
        let why = self.ledger.why(slot, item);
        let failed = self.answerer.answer(number, item, &verdict, why).is_err();
        count_answer(&mut self.counts, verdict, failed);
        self.ledger.answered(slot, item);
    }

    /// Gives a transaction that is out its parts.
    pub(crate) fn give(&mut self, slot: u32, routes: Routes)
        requires within { slot < length self.old.ledger.slots }
        requires out { IsOut (slot_at self.old.ledger slot) }
        requires fits { PartsFit (D.sinks self.old.outside.plan) (length (D.policies self.old.outside.plan)) (items_in (slot_at self.old.ledger slot)) (parts_of routes.parts.list) }
        requires few { length routes.parts.list < 2 ^ 32 }
        requires none { routes.counts.list ≡ [] }
        requires room { items_in (slot_at self.old.ledger slot) ≤ routes.counts.spare }
        requires derived { Derived ⟦<I as Intake>⟧ ⟦<C as Clock>⟧ ⟦<D as Derive>⟧ self.old.outside (number_in (slot_at self.old.ledger slot)) (parts_of routes.parts.list) }
        ensures ledger { self.new.ledger ≡ with_slot self.old.ledger slot (Given (given_open (slot_at self.old.ledger slot) (parts_of routes.parts.list))) }
        ensures outside { self.new.outside ≡ self.old.outside }
        ensures calm { RipensNone self.old.ledger self.new.ledger }
        ensures sinks { self.new.sinks ≡ self.old.sinks }
        ensures answerer { self.new.answerer ≡ self.old.answerer }
    {
        let _booked = self.ledger.booked();
        self.ledger.give(slot, routes);
    }

    /// Closes a transaction all of whose items are answered.
    pub(crate) fn close(&mut self, slot: u32)
        requires given { IsGiven self.old.ledger slot }
        requires answered { unanswered (answered_in (slot_at self.old.ledger slot)) ≡ 0 }
        ensures ledger { self.new.ledger ≡ with_slot self.old.ledger slot Free }
        ensures releases { self.new.releases ≡ self.old.releases }
        ensures outside { self.new.outside ≡ self.old.outside }
        ensures sinks { self.new.sinks ≡ self.old.sinks }
        ensures answerer { self.new.answerer ≡ self.old.answerer }
    {
        let _routes = self.ledger.close(slot);
    }

    /// Counts a release, and gives its number among those of the hold, from 1.
    pub(crate) fn begin_release(&mut self, node: u32, why: Reason) -> u64
        requires { node < length self.old.ledger.policies }
        ensures ledger { self.new.ledger ≡ self.old.ledger }
        ensures outside { self.new.outside ≡ self.old.outside }
        ensures number { result ≡ one_more (get_or self.old.releases node 0) }
        ensures releases { self.new.releases ≡ set self.old.releases node result }
        ensures rise { ReleasesRise self.old.releases self.new.releases }
        ensures fits { BatchFits self.new.releases (Some node) result }
        ensures counts { self.new.counts ≡ count_with why self.old.counts }
    {
        count_reason(&mut self.counts, why);
        count_release(&mut self.releases, node)
    }
}

/// The verdict on an item that is due.
fn verdict_on(ledger: &Ledger, slot: u32, item: u64) -> Verdict
    requires given { IsGiven ledger.now slot }
    requires due { LeastDue (open_in (slot_at ledger.now slot)) (Some item) }
    ensures { Some result ≡ verdict_of (open_in (slot_at ledger.now slot)) item }
{
    match ledger.verdict_of(slot, item) {
        Some(verdict) => verdict,
        None => unreachable!(),
    }
}

/// Puts a record to a sink, and gives whether it was accepted.
fn write<K: Sink>(
    sinks: &mut Vec<K>,
    sink: u32,
    number: u64,
    part: u32,
    leaf: u32,
    batch: u64,
    bytes: &[u8],
) -> bool
    requires { sink < length sinks.old.items }
    ensures { PutAt ⟦<K as Sink>⟧ sinks.old.items sinks.new.items sink (record { txn = number; part = part; leaf = leaf; batch = batch; bytes = bytes.now }) result }
{
    let k = &mut sinks[sink as usize];
    match k.put(number, part, leaf, batch, bytes) {
        Ok(()) => true,
        Err(_) => false,
    }
}

/// Counts an answer of that verdict, which failed or not.
pub(crate) fn count_answer(counts: &mut Counts, verdict: Verdict, failed: bool)
    ensures { counts.new ≡ answer_with verdict failed counts.old }
{
    match verdict {
        Verdict::Ack => counts.acked = counts.acked.saturating_add(1),
        Verdict::Refused(cause) => {
            counts.refused = counts.refused.saturating_add(1);
            if cause == Cause::NoMemory {
                counts.refused_memory = counts.refused_memory.saturating_add(1);
            }
        }
    }
    if failed {
        counts.answer_faults = counts.answer_faults.saturating_add(1);
    }
}

/// Counts a release for that reason.
fn count_reason(counts: &mut Counts, why: Reason)
    ensures { counts.new ≡ count_with why counts.old }
{
    match why {
        Reason::Count => counts.count = counts.count.saturating_add(1),
        Reason::Bytes => counts.bytes = counts.bytes.saturating_add(1),
        Reason::Check => counts.check = counts.check.saturating_add(1),
        Reason::Period => counts.period = counts.period.saturating_add(1),
        Reason::Stall => counts.stall = counts.stall.saturating_add(1),
        Reason::Room => counts.room = counts.room.saturating_add(1),
        Reason::End => counts.end = counts.end.saturating_add(1),
    }
}

/// Counts a release of a hold, and gives how many there are.
fn count_release(releases: &mut Vec<u64>, node: u32) -> u64
    requires { node < length releases.old.items }
    ensures number { result ≡ one_more (get_or releases.old.items node 0) }
    ensures releases { releases.new.items ≡ set releases.old.items node result }
    ensures rises { get_or releases.old.items node 0 ≤ result }
{
    let count = &mut releases[node as usize];
    *count = count.saturating_add(1);
    *count
}
