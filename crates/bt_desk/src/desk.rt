//! The desk's calls.
ghost use Rattle.std.specs.Prelude.{◌≡◌, ◌⊎◌, ℕ, ◌^◌, ◌<◌, List, [], length, IfOk, IfErr, IsTrue, IsSome, Some, None, true};
ghost use Rattle.bt_ports.specs.Intake.{stop_of};
ghost use Rattle.bt_desk.specs.Stands.{ending_of};
ghost use Rattle.bt_desk.specs.Calls.{answer_to};

use crate::parts::{Admit, Parts};
use crate::report::{Ending, Out, Report};
use crate::settle::settle;
use bt_ports::NoMemory;
use bt_ports::outside::{Answerer, Clock, Intake, Sink};
use bt_ports::parts::{Items, Next, Sinks, Txn};
use std::alloc::Global;
use std::marker::Model;

/// The intake, the sinks, the answerer and the clock of a run as one state.
///
/// A desk isn't dropped: it is spent by `into_parts`, which needs that the run was finished or that nothing was taken.
pub struct Desk<I: Intake, K: Sink, A: Answerer, C: Clock> {
    intake: I,
    sinks: Sinks<K>,
    answerer: A,
    clock: C,
    out: Vec<Out>,
    report: Report,
    finished: bool,
}

impl<I: Intake, K: Sink, A: Answerer, C: Clock> Model for Desk<I, K, A, C> {
    ghost use Rattle.std.specs.Prelude.{◌≤◌};
    ghost use Rattle.std.specs.Vec.{vec_capacity};
    ghost use Rattle.bt_desk.specs.DeskView.{DeskView};
    ghost use Rattle.bt_desk.specs.Stands.{Stands};

    ghost Value = { DeskView I K A C };

    ghost use Rattle.bt_desk.specs.Inside.{shown};

    ghost view = { shown };

    // There is room for the transaction that is out, and what stands between two calls holds.
    ghost invariant = { λ d. record { room : 1 ≤ vec_capacity d.out; stands : Stands ⟦<I as Intake>⟧ ⟦<K as Sink>⟧ ⟦<A as Answerer>⟧ ⟦<C as Clock>⟧ (shown d) } };
}

/// The batch, or the ending that another answer of an intake is.
fn batch_of(next: Next) -> Result<Items, Ending>
    ensures batch { IfOk result (λ items. next ≡ Next.Batch items) }
    ensures ending { IfErr result (λ ending. ending_of (stop_of next) ≡ Some ending) }
{
    match next {
        Next::Batch(items) => Ok(items),
        Next::End => Err(Ending::Ended),
        Next::Failed => Err(Ending::ReadFault),
        Next::LongLine(line) => Err(Ending::LongLine(line)),
        Next::Bound => Err(Ending::Bound),
        Next::NoMemory => Err(Ending::NoMemory),
    }
}

/// An admission's answer for an ending.
fn answer_of(ending: Ending) -> Admit
    ensures { result ≡ answer_to ending }
{
    match ending {
        Ending::Ended => Admit::Ended,
        Ending::ReadFault => Admit::ReadFault,
        Ending::LongLine(_) => Admit::Bound,
        Ending::Bound => Admit::Bound,
        Ending::NoMemory => Admit::NoMemory,
    }
}

impl<I: Intake, K: Sink, A: Answerer, C: Clock> Desk<I, K, A, C> {
    ghost use Rattle.bt_desk.specs.Stands.{Stands};
    ghost use Rattle.bt_desk.specs.History.{Settled};
    ghost use Rattle.bt_desk.specs.Finished.{Counts, Rises, IsClean};
    ghost use Rattle.bt_desk.specs.Calls.{IsUnwritten, IsUnanswered, IsUnread, Begins, SameRun, IsOut, Admits, AdmitFaults, OnlyAdmits, Delivers};

    /// A desk over these parts, on which nothing was taken. It reserves the room for the transaction that is out.
    ///
    /// The intake may have given batches before. The run is of those that it gives from now on.
    ///
    /// # Errors
    ///
    /// Where there is no memory, and the parts are handed back as they were.
    pub fn make(
        alloc: Global,
        parts: Parts<I, K, A, C>,
    ) -> Result<Self, (NoMemory, Parts<I, K, A, C>)>
        requires one_sink { length parts.sinks.list ≡ 1 }
        requires goes { I.stopped parts.intake ≡ None }
        requires few { I.left parts.intake < 2 ^ 56 }
        requires unwritten { IsUnwritten ⟦<K as Sink>⟧ parts.sinks.list }
        requires unanswered { IsUnanswered ⟦<A as Answerer>⟧ parts.answerer }
        requires unread { IsUnread ⟦<C as Clock>⟧ parts.clock }
        ensures begins { IfOk result (λ desk. Begins desk parts) }
        ensures stands { IfOk result (λ desk. Stands ⟦<I as Intake>⟧ ⟦<K as Sink>⟧ ⟦<A as Answerer>⟧ ⟦<C as Clock>⟧ desk) }
        ensures parts { IfErr result (λ e. e.1 ≡ parts) }
    {
        match Vec::with_capacity(alloc, 1) {
            Ok(out) => {
                let Parts {
                    intake,
                    sinks,
                    answerer,
                    clock,
                } = parts;
                Ok(Desk {
                    intake,
                    sinks,
                    answerer,
                    clock,
                    out,
                    report: Report::new(),
                    finished: false,
                })
            }
            Err(_) => Err((NoMemory, parts)),
        }
    }

    /// Takes the next transaction, with the clock's next reading as its moment, or finds how the run ends.
    ///
    /// Transactions are numbered from 1. Each that is taken has to be delivered before the next call. Only the intake
    /// may take memory here, and `NoMemory` comes exactly where it found none.
    pub fn admit(&mut self) -> Admit
        requires idle { self.old.out ≡ [] }
        requires goes { self.old.report.ending ≡ None }
        ensures admits { Admits ⟦<I as Intake>⟧ ⟦<C as Clock>⟧ result self.old self.new }
        ensures faults { AdmitFaults result (I.faults self.old.intake) (I.faults self.new.intake) }
        ensures only { OnlyAdmits ⟦<I as Intake>⟧ self.old self.new }
        ensures run { SameRun ⟦<I as Intake>⟧ ⟦<C as Clock>⟧ self.old self.new }
        ensures stands { Stands ⟦<I as Intake>⟧ ⟦<K as Sink>⟧ ⟦<A as Answerer>⟧ ⟦<C as Clock>⟧ self.new }
    {
        match batch_of(self.intake.next()) {
            Ok(items) => {
                let moment = self.clock.now();
                self.report.taken += 1;
                let number = self.report.taken;
                self.out.push_reserved(Out {
                    number,
                    items: items.len() as u64,
                });
                Admit::Job(Txn {
                    number,
                    moment,
                    items,
                })
            }
            Err(ending) => {
                self.report.ending = Some(ending);
                answer_of(ending)
            }
        }
    }

    /// Puts each item of the transaction that the last admission gave to the sink, answers it and counts the answer.
    ///
    /// An item is acknowledged where its record was accepted, and else refused for the sink's fault. A record that is
    /// refused and an answer that fails change nothing for later items, and neither is repeated. Takes no memory.
    pub fn deliver(&mut self, txn: Txn)
        requires out { IsOut ⟦<I as Intake>⟧ self.old txn }
        ensures delivers { ((items : List Settled) × Delivers ⟦<K as Sink>⟧ ⟦<A as Answerer>⟧ txn self.old self.new items) }
        ensures run { SameRun ⟦<I as Intake>⟧ ⟦<C as Clock>⟧ self.old self.new }
        ensures stands { Stands ⟦<I as Intake>⟧ ⟦<K as Sink>⟧ ⟦<A as Answerer>⟧ ⟦<C as Clock>⟧ self.new }
    {
        settle(
            &mut self.sinks,
            &mut self.answerer,
            &mut self.report,
            txn.number,
            txn.items.as_slice(),
        );
        self.out.clear();
    }

    /// Closes a run that has ended. All items of all taken transactions are answered. Takes no memory.
    pub fn finish(&mut self)
        requires ended { IsSome self.old.report.ending }
        requires idle { self.old.out ≡ [] }
        ensures finished { self.new ≡ record self.old { finished = true } }
        ensures stands { Stands ⟦<I as Intake>⟧ ⟦<K as Sink>⟧ ⟦<A as Answerer>⟧ ⟦<C as Clock>⟧ self.new }
    {
        self.finished = true;
    }

    /// What the run reports so far.
    pub fn report(&self) -> Report
        ensures report { result ≡ self.now.report }
        ensures counts { Counts ⟦<K as Sink>⟧ ⟦<A as Answerer>⟧ self.now }
        ensures stands { Stands ⟦<I as Intake>⟧ ⟦<K as Sink>⟧ ⟦<A as Answerer>⟧ ⟦<C as Clock>⟧ self.now }
    {
        self.report
    }

    /// Spends the desk and hands back its parts. Takes no memory.
    ///
    /// What then holds of them is said of the desk as it was. With counts that rose, each list is still the one that
    /// `Stands` gives, in order, and where none was counted each item has its record and its acknowledgement.
    pub fn into_parts(self) -> Parts<I, K, A, C>
        requires done { (self.finished ≡ true) ⊎ (self.report.taken ≡ 0) }
        ensures intake { result.intake ≡ self.intake }
        ensures sinks { result.sinks ≡ self.sinks }
        ensures answerer { result.answerer ≡ self.answerer }
        ensures clock { result.clock ≡ self.clock }
        ensures stands { Stands ⟦<I as Intake>⟧ ⟦<K as Sink>⟧ ⟦<A as Answerer>⟧ ⟦<C as Clock>⟧ self }
        ensures idle { self.out ≡ [] }
        ensures counts { Counts ⟦<K as Sink>⟧ ⟦<A as Answerer>⟧ self }
        ensures rises { Rises ⟦<K as Sink>⟧ ⟦<A as Answerer>⟧ self }
        ensures clean { IsClean ⟦<I as Intake>⟧ ⟦<K as Sink>⟧ ⟦<A as Answerer>⟧ self }
    {
        let Desk {
            intake,
            sinks,
            answerer,
            clock,
            out: _,
            report: _,
            finished: _,
        } = self;
        Parts {
            intake,
            sinks,
            answerer,
            clock,
        }
    }
}
