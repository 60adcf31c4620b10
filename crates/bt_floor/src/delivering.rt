//! The parts of a delivered transaction, one after another.
ghost use Rattle.std.specs.Prelude.{IfErr, IfOk, ◌≡◌, ◌≢◌, ℕ, ◌+◌, ◌<◌, ◌≤◌, ◌^◌, [], length, true, false};
ghost use Rattle.bt_demand.specs.Find.{begun};
ghost use Rattle.bt_demand.specs.Flushing.{Still};
ghost use Rattle.bt_demand.specs.Next.{todo};
ghost use Rattle.bt_demand.specs.Parts.{PartsFit, parts_of};
ghost use Rattle.bt_ledger.specs.Calls.{IsOut};
ghost use Rattle.bt_ledger.specs.Ledger.{items_in, number_in, slot_at, part_tree, parts_in, is_given, IsPart, IsGiven, Roomy, with_slot};
ghost use Rattle.bt_ledger.specs.declared.slot.Slot.TheVariants.{Given};
ghost use Rattle.bt_moves.specs.Moves.{Delivered, SlotStays, OutStays};
ghost use Rattle.bt_moves.specs.Resting.{AllSettled, Resting, AtRest, Delivering, Unripe};
ghost use Rattle.bt_sound.specs.Counting.{capped};
ghost use Rattle.bt_sound.specs.Transactions.{Derived, given_open};
ghost use Rattle.bt_sound.specs.Turns.{DeliveredInTurn, RefusedInTurn, Turned};

use crate::floor::Floor;
use bt_demand::derive::Derive;
use bt_demand::routes::Routes;
use bt_ledger::reason::Reason;
use bt_ports::NoMemory;
use bt_ports::outside::{Answerer, Clock, Intake, Sink};

impl<I: Intake, K: Sink, A: Answerer, C: Clock, D: Derive> Floor<I, K, A, C, D> {
    /// Whether the holds of a part find room in the pool beside those that are booked.
    fn has_room(&self, slot: u32, part: u32) -> bool
        requires { IsPart self.now.ledger slot part }
        ensures { result ≡ true → Roomy self.now.ledger slot part }
    {
        self.ledger.booked() as u64 + self.ledger.holds_in(slot, part) as u64 <= self.entries as u64
    }

    /// Flushes where a part's holds find no room.
    pub(crate) fn make_room(&mut self, slot: u32, part: u32)
        requires part { IsPart self.old.ledger slot part }
        requires delivering { Delivering slot part self.old.ledger }
        ensures delivering { Delivering slot part self.new.ledger }
        ensures slots { length self.new.ledger.slots ≡ length self.old.ledger.slots }
        ensures stays { SlotStays self.old.ledger self.new.ledger slot }
        ensures room { Roomy self.new.ledger slot part }
        ensures outs { OutStays self.old.ledger self.new.ledger }
        ensures outside { self.new.outside ≡ self.old.outside }
        ensures unheld { self.old.ledger.policies ≡ [] → self.new ≡ self.old }
    {
        if self.has_room(slot, part) {
            return;
        }
        self.flush(Reason::Room);
        self.in_order();
    }

    /// Settles a part as far as it goes, once there is room for its holds.
    fn begin(&mut self, slot: u32, part: u32)
        requires part { IsPart self.old.ledger slot part }
        requires delivering { Delivering slot part self.old.ledger }
        ensures delivering { Delivering slot (part + 1) self.new.ledger }
        ensures slots { length self.new.ledger.slots ≡ length self.old.ledger.slots }
        ensures stays { SlotStays self.old.ledger self.new.ledger slot }
        ensures outs { OutStays self.old.ledger self.new.ledger }
        ensures outside { self.new.outside ≡ self.old.outside }
        ensures turn { self.old.ledger.policies ≡ [] → Turned ⟦<K as Sink>⟧ ⟦<A as Answerer>⟧ slot part (part + 1) self.old self.new }
    {
        self.make_room(slot, part);
        if self.is_given(slot) {
            self.settle_part(slot, part);
        }
    }

    /// Settles a part, where its transaction is still open.
    fn begin_if_given(&mut self, slot: u32, part: u32)
        requires within { slot < length self.old.ledger.slots }
        requires part { is_given (slot_at self.old.ledger slot) ≡ true → IsPart self.old.ledger slot part }
        requires delivering { Delivering slot part self.old.ledger }
        ensures delivering { Delivering slot (part + 1) self.new.ledger }
        ensures slots { length self.new.ledger.slots ≡ length self.old.ledger.slots }
        ensures stays { SlotStays self.old.ledger self.new.ledger slot }
        ensures outs { OutStays self.old.ledger self.new.ledger }
        ensures outside { self.new.outside ≡ self.old.outside }
        ensures turn { self.old.ledger.policies ≡ [] → is_given (slot_at self.old.ledger slot) ≡ true → Turned ⟦<K as Sink>⟧ ⟦<A as Answerer>⟧ slot part (part + 1) self.old self.new }
        ensures closed { is_given (slot_at self.old.ledger slot) ≡ false → self.new ≡ self.old }
    {
        if self.is_given(slot) {
            self.begin(slot, part);
        }
    }

    /// Settles the parts of a transaction in order, as far as they go.
    pub fn settle_parts(&mut self, slot: u32)
        requires given { IsGiven self.old.ledger slot }
        requires delivering { Delivering slot 0 self.old.ledger }
        ensures delivering { Delivering slot (length (parts_in (slot_at self.old.ledger slot))) self.new.ledger }
        ensures ends { length (parts_in (slot_at self.new.ledger slot)) ≤ length (parts_in (slot_at self.old.ledger slot)) }
        ensures outs { OutStays self.old.ledger self.new.ledger }
        ensures slots { length self.new.ledger.slots ≡ length self.old.ledger.slots }
        ensures outside { self.new.outside ≡ self.old.outside }
        ensures turn { self.old.ledger.policies ≡ [] → Turned ⟦<K as Sink>⟧ ⟦<A as Answerer>⟧ slot 0 (length (parts_in (slot_at self.old.ledger slot))) self.old self.new }
    {
        for part in 0..self.parts(slot) {
            self.begin_if_given(slot, part);
        }
    }

    /// Settles the parts of a transaction of which none has begun.
    fn deliver(&mut self, slot: u32)
        requires given { IsGiven self.old.ledger slot }
        requires quiet { (a b : ℕ) → a ≢ slot → Still (todo (part_tree self.old.ledger a b)) }
        requires fresh { (b : ℕ) → begun (part_tree self.old.ledger slot b) ≡ false }
        requires rest { (a : ℕ) → AtRest self.old.ledger a }
        requires calm { (n : ℕ) → Unripe self.old.ledger n }
        requires settled { AllSettled self.old.ledger }
        ensures resting { Resting self.new.ledger }
        ensures outs { OutStays self.old.ledger self.new.ledger }
        ensures slots { length self.new.ledger.slots ≡ length self.old.ledger.slots }
        ensures outside { self.new.outside ≡ self.old.outside }
        ensures turn { self.old.ledger.policies ≡ [] → Turned ⟦<K as Sink>⟧ ⟦<A as Answerer>⟧ slot 0 (length (parts_in (slot_at self.old.ledger slot))) self.old self.new }
    {
        self.settle_parts(slot);
    }

    /// Gives a transaction that is out its parts, and settles them in order, as far as they go.
    pub fn deliver_routes(&mut self, slot: u32, routes: Routes)
        requires resting { Resting self.old.ledger }
        requires within { slot < length self.old.ledger.slots }
        requires out { IsOut (slot_at self.old.ledger slot) }
        requires fits { PartsFit (D.sinks self.old.outside.plan) (length (D.policies self.old.outside.plan)) (items_in (slot_at self.old.ledger slot)) (parts_of routes.parts.list) }
        requires few { length routes.parts.list < 2 ^ 32 }
        requires none { routes.counts.list ≡ [] }
        requires room { items_in (slot_at self.old.ledger slot) ≤ routes.counts.spare }
        requires derived { Derived ⟦<I as Intake>⟧ ⟦<C as Clock>⟧ ⟦<D as Derive>⟧ self.old.outside (number_in (slot_at self.old.ledger slot)) (parts_of routes.parts.list) }
        ensures resting { Resting self.new.ledger }
        ensures outs { OutStays (with_slot self.old.ledger slot (Given (given_open (slot_at self.old.ledger slot) (parts_of routes.parts.list)))) self.new.ledger }
        ensures slots { length self.new.ledger.slots ≡ length self.old.ledger.slots }
        ensures outside { self.new.outside ≡ self.old.outside }
        ensures turn { self.old.ledger.policies ≡ [] → DeliveredInTurn ⟦<K as Sink>⟧ ⟦<A as Answerer>⟧ (number_in (slot_at self.old.ledger slot)) (parts_of routes.parts.list) self.old self.new }
    {
        self.give(slot, routes);
        self.finish_part(slot);
        if self.is_given(slot) {
            self.deliver(slot);
        }
    }

    /// Settles what became of a transaction that is out: its parts, or that there was no memory for them. Items are refused
    /// for want of memory in the second case alone, and then all are.
    pub fn settle(&mut self, slot: u32, items: u64, routes: Result<Routes, NoMemory>)
        requires resting { Resting self.old.ledger }
        requires within { slot < length self.old.ledger.slots }
        requires out { IsOut (slot_at self.old.ledger slot) }
        requires items { items ≡ items_in (slot_at self.old.ledger slot) }
        requires fits { IfOk routes (λ r. PartsFit (D.sinks self.old.outside.plan) (length (D.policies self.old.outside.plan)) items (parts_of r.parts.list)) }
        requires few { IfOk routes (λ r. length r.parts.list < 2 ^ 32) }
        requires none { IfOk routes (λ r. r.counts.list ≡ []) }
        requires room { IfOk routes (λ r. items ≤ r.counts.spare) }
        requires derived { IfOk routes (λ r. Derived ⟦<I as Intake>⟧ ⟦<C as Clock>⟧ ⟦<D as Derive>⟧ self.old.outside (number_in (slot_at self.old.ledger slot)) (parts_of r.parts.list)) }
        ensures resting { Resting self.new.ledger }
        ensures delivered { Delivered slot self.old.ledger self.new.ledger }
        ensures slots { length self.new.ledger.slots ≡ length self.old.ledger.slots }
        ensures kept { IfOk routes (λ _. self.new.outside ≡ self.old.outside) }
        ensures refused { IfErr routes (λ _. self.new.outside ≡ record self.old.outside { refused_memory = capped (self.old.outside.refused_memory + items) }) }
        ensures ending { self.new.outside.ending ≡ self.old.outside.ending }
        ensures refusal { IfErr routes (λ _. RefusedInTurn ⟦<A as Answerer>⟧ (number_in (slot_at self.old.ledger slot)) items self.old self.new) }
        ensures turn { IfOk routes (λ r. self.old.ledger.policies ≡ [] → DeliveredInTurn ⟦<K as Sink>⟧ ⟦<A as Answerer>⟧ (number_in (slot_at self.old.ledger slot)) (parts_of r.parts.list) self.old self.new) }
    {
        match routes {
            Ok(routes) => self.deliver_routes(slot, routes),
            Err(_) => self.refuse(slot, items),
        }
    }
}
