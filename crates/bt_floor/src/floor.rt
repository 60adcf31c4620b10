//! The state of a floor, and what is asked of it.
ghost use Rattle.std.specs.Prelude.{◌≡◌, ℕ, ◌<◌, ◌≤◌, length, None};
ghost use Rattle.bt_demand.specs.Flushing.{InOrder};
ghost use Rattle.bt_demand.specs.Next.{todo};
ghost use Rattle.bt_ledger.specs.Book.{Booked};
ghost use Rattle.bt_ledger.specs.Calls.{TodoFits, reason};
ghost use Rattle.bt_ledger.specs.Due.{LeastDue, unanswered};
ghost use Rattle.bt_ledger.specs.Ledger.{opened, slot_at, part_tree, parts_in, is_given, IsPart, IsGiven, open_in, answered_in};
ghost use Rattle.bt_sound.specs.Sound.{IsSound};

use bt_demand::derive::Derive;
use bt_demand::todo::Todo;
use bt_ledger::ledger::Ledger;
use bt_ledger::reason::Reason;
use bt_ports::outside::{Answerer, Clock, Intake, Sink};
use bt_sound::counts::{Counts, Ending};
use std::marker::Model;
use std::sync::Arc;

/// The ledger, the sinks, the answerer, the counts, and what no settling changes: the plan, the intake, the clock, how many
/// transactions were taken, and how the intake ended.
#[derive(Drop)]
pub struct Floor<I: Intake, K: Sink, A: Answerer, C: Clock, D: Derive> {
    pub(crate) ledger: Ledger,
    pub(crate) sinks: Vec<K>,
    pub(crate) answerer: A,
    pub(crate) releases: Vec<u64>,
    pub(crate) counts: Counts,
    pub(crate) entries: u32,
    pub(crate) plan: Arc<D>,
    pub(crate) intake: I,
    pub(crate) clock: C,
    pub(crate) taken: u64,
    pub(crate) ending: Option<Ending>,
}

impl<I: Intake, K: Sink, A: Answerer, C: Clock, D: Derive> Model for Floor<I, K, A, C, D> {
    ghost use Rattle.bt_sound.specs.View.{FloorView};
    ghost use Rattle.bt_ledger.specs.contracts.ledger.Ledger.{the_row};
    ghost use Rattle.std.specs.Coded.{codes};

    ghost Value = { FloorView I K A C D };

    ghost coded = { Prim.hlevel (codes, the_row.coded) };

    ghost use Rattle.bt_floor.specs.Inside.{shown};
    ghost use Rattle.bt_sound.specs.Sound.{IsSound};

    ghost view = { shown };

    ghost invariant = { λ f. IsSound ⟦<I as Intake>⟧ ⟦<K as Sink>⟧ ⟦<A as Answerer>⟧ ⟦<C as Clock>⟧ ⟦<D as Derive>⟧ (shown f) };
}

impl<I: Intake, K: Sink, A: Answerer, C: Clock, D: Derive> Floor<I, K, A, C, D> {
    /// The next thing to do for the part, the leftmost first.
    pub(crate) fn next(&self, slot: u32, part: u32) -> Option<Todo>
        requires { IsPart self.now.ledger slot part }
        ensures next { result ≡ todo (part_tree self.now.ledger slot part) }
        ensures known { TodoFits (length self.now.ledger.policies) result }
    {
        self.ledger.todo(slot, part)
    }

    /// Whether the transaction in the slot is open.
    pub(crate) fn is_given(&self, slot: u32) -> bool
        requires { slot < length self.now.ledger.slots }
        ensures { result ≡ is_given (slot_at self.now.ledger slot) }
    {
        self.ledger.is_given(slot)
    }

    /// How many items of an open transaction aren't answered.
    pub(crate) fn unanswered(&self, slot: u32) -> u64
        requires { IsGiven self.now.ledger slot }
        ensures { result ≡ unanswered (answered_in (slot_at self.now.ledger slot)) }
    {
        self.ledger.unanswered(slot)
    }

    /// The least item that is due.
    pub(crate) fn due(&self, slot: u32) -> Option<u64>
        requires { IsGiven self.now.ledger slot }
        ensures { LeastDue (open_in (slot_at self.now.ledger slot)) result }
    {
        self.ledger.due(slot)
    }

    /// The reason for which a chain is to be released at once: Count, Bytes or Check.
    pub(crate) fn ripe(&self, node: u32) -> Option<Reason>
        requires { node < length self.now.ledger.policies }
        ensures { result ≡ reason self.now.ledger node None }
    {
        self.ledger.ripe(node, None)
    }

    /// How many holds there are.
    pub(crate) fn holds(&self) -> u32
        ensures { result ≡ length self.now.ledger.policies }
    {
        self.releases.len() as u32
    }

    /// How many parts an open transaction has.
    pub(crate) fn parts(&self, slot: u32) -> u32
        requires { IsGiven self.now.ledger slot }
        ensures { result ≡ length (parts_in (slot_at self.now.ledger slot)) }
    {
        self.ledger.parts(slot)
    }

    /// How many transactions are out or open. The window is full where it is the number of slots.
    pub fn opened(&self) -> u32
        ensures exact { result ≡ opened self.now.ledger }
        ensures bound { opened self.now.ledger ≤ length self.now.ledger.slots }
    {
        self.ledger.opened()
    }

    /// How many transactions were taken.
    pub fn taken(&self) -> u64
        ensures { result ≡ self.now.outside.taken }
    {
        self.taken
    }

    /// How the intake ended, and None while it goes on.
    pub fn ending(&self) -> Option<Ending>
        ensures { result ≡ self.now.outside.ending }
    {
        self.ending
    }

    /// The answers by verdict and the releases by reason.
    pub fn counts(&self) -> Counts
        ensures { result ≡ self.now.counts }
    {
        self.counts
    }

    /// A law of the floor: in each demand later holds have greater numbers, and the pool has an entry for each hold of a part.
    pub fn in_order(&self)
        ensures order { (s p : ℕ) → InOrder (part_tree self.now.ledger s p) }
        ensures wide { 64 ≤ self.now.ledger.entries }
        ensures book { Booked self.now.ledger }
    {
        let _booked = self.ledger.booked();
    }

    /// A law of the floor: what is true of it between any two moves.
    pub fn sound(&self)
        ensures { IsSound ⟦<I as Intake>⟧ ⟦<K as Sink>⟧ ⟦<A as Answerer>⟧ ⟦<C as Clock>⟧ ⟦<D as Derive>⟧ self.now }
    {
        let _ledger = &self.ledger;
    }
}
