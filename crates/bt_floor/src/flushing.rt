//! Flushing all chains, and releasing those whose period is past.
ghost use Rattle.std.specs.Prelude.{◌≡◌, ℕ, ◌<◌, [], length, ltb, false};
ghost use Rattle.bt_ledger.specs.Ledger.{slot_at, is_given, chain_at};
ghost use Rattle.bt_moves.specs.Moves.{LateKeepsBut, Keeps, RipensNone, BeginsNone, OutStays};
ghost use Rattle.bt_moves.specs.Resting.{AllSettled, NoneWaitedOut, Resting, BegunStill, Emptied, StaysUnlessPast, Unripe, waited_out};

use crate::floor::Floor;
use bt_demand::derive::Derive;
use bt_ledger::reason::Reason;
use bt_ports::outside::{Answerer, Clock, Intake, Sink};

impl<I: Intake, K: Sink, A: Answerer, C: Clock, D: Derive> Floor<I, K, A, C, D> {
    /// Whether anything waits in a chain.
    fn waits_in(&self, node: u32) -> bool
        requires { node < length self.now.ledger.policies }
        ensures { result ≡ ltb 0 (length (chain_at self.now.ledger node)) }
    {
        let _booked = self.ledger.booked();
        self.ledger.pool().len(node) > 0
    }

    /// Releases a chain where it holds something.
    fn flush_one(&mut self, node: u32, why: Reason)
        requires known { node < length self.old.ledger.policies }
        requires settled { AllSettled self.old.ledger }
        ensures settled { AllSettled self.new.ledger }
        ensures others { Keeps self.old.ledger self.new.ledger }
        ensures fresh { BeginsNone self.old.ledger self.new.ledger }
        ensures outs { OutStays self.old.ledger self.new.ledger }
        ensures calm { RipensNone self.old.ledger self.new.ledger }
        ensures outside { self.new.outside ≡ self.old.outside }
        ensures late { LateKeepsBut node node self.old.ledger self.new.ledger }
        ensures empties { chain_at self.new.ledger node ≡ [] }
    {
        if self.waits_in(node) {
            self.release(node, why);
        }
    }

    /// Releases every chain that holds something, in order of number. Afterwards none does.
    pub fn flush(&mut self, why: Reason)
        requires still { BegunStill self.old.ledger }
        requires settled { AllSettled self.old.ledger }
        ensures settled { AllSettled self.new.ledger }
        ensures empty { Emptied self.new.ledger }
        ensures others { Keeps self.old.ledger self.new.ledger }
        ensures fresh { BeginsNone self.old.ledger self.new.ledger }
        ensures outs { OutStays self.old.ledger self.new.ledger }
        ensures calm { RipensNone self.old.ledger self.new.ledger }
        ensures outside { self.new.outside ≡ self.old.outside }
        ensures unheld { self.old.ledger.policies ≡ [] → self.new ≡ self.old }
    {
        for node in 0..self.holds() {
            self.in_order();
            self.flush_one(node, why);
        }
        self.in_order();
    }

    /// Flushes a floor on which nothing can go on. That closes every transaction that is open. Where there are no holds,
    /// nothing changes.
    pub fn flush_all(&mut self, why: Reason)
        requires { Resting self.old.ledger }
        ensures resting { Resting self.new.ledger }
        ensures outs { OutStays self.old.ledger self.new.ledger }
        ensures empty { Emptied self.new.ledger }
        ensures closed { (s : ℕ) → is_given (slot_at self.new.ledger s) ≡ false }
        ensures outside { self.new.outside ≡ self.old.outside }
        ensures slots { length self.new.ledger.slots ≡ length self.old.ledger.slots }
        ensures unheld { self.old.ledger.policies ≡ [] → self.new ≡ self.old }
    {
        self.flush(why);
        self.in_order();
    }

    /// Whether a chain's oldest entry waited for the hold's period at that moment.
    fn is_past(&self, node: u32, moment: u64) -> bool
        requires known { node < length self.now.ledger.policies }
        requires unripe { Unripe self.now.ledger node }
        ensures { result ≡ waited_out self.now.ledger node moment }
    {
        self.ledger.ripe(node, Some(moment)).is_some()
    }

    /// Releases a chain whose oldest entry waited for the hold's period at that moment. Where it didn't, nothing changes.
    fn release_if_past(&mut self, node: u32, moment: u64)
        requires known { node < length self.old.ledger.policies }
        requires settled { AllSettled self.old.ledger }
        requires unripe { Unripe self.old.ledger node }
        ensures done { waited_out self.new.ledger node moment ≡ false }
        ensures unless { waited_out self.old.ledger node moment ≡ false → self.new ≡ self.old }
        ensures late { LateKeepsBut node node self.old.ledger self.new.ledger }
        ensures fresh { BeginsNone self.old.ledger self.new.ledger }
        ensures settled { AllSettled self.new.ledger }
        ensures others { Keeps self.old.ledger self.new.ledger }
        ensures calm { RipensNone self.old.ledger self.new.ledger }
        ensures outs { OutStays self.old.ledger self.new.ledger }
        ensures outside { self.new.outside ≡ self.old.outside }
    {
        if self.is_past(node, moment) {
            self.release(node, Reason::Period);
        }
    }

    /// Releases, in order of number, each chain whose oldest entry waited for the hold's period at that moment. Afterwards
    /// none did. The chains before the first that did stay as they were, and where none did, nothing changes.
    pub fn release_past(&mut self, moment: u64)
        requires resting { Resting self.old.ledger }
        ensures none { NoneWaitedOut self.new.ledger moment }
        ensures stays { StaysUnlessPast moment self.old.ledger self.new.ledger }
        ensures unless { NoneWaitedOut self.old.ledger moment → self.new ≡ self.old }
        ensures settled { AllSettled self.new.ledger }
        ensures others { Keeps self.old.ledger self.new.ledger }
        ensures calm { RipensNone self.old.ledger self.new.ledger }
        ensures outs { OutStays self.old.ledger self.new.ledger }
        ensures outside { self.new.outside ≡ self.old.outside }
    {
        for node in 0..self.holds() {
            self.in_order();
            self.release_if_past(node, moment);
        }
    }
}
