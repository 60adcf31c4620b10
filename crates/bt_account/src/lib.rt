//! What the account of a run says of runs in which nothing failed, of runs that read their input to its end, and of the
//! order in which outputs were written.
#![tactic(auto)]

ghost use Rattle.std.specs.Prelude.{◌≡◌, [], IsTrue};
ghost use Rattle.bt_account.specs.Delivered.{AllDelivered, WentWell};
ghost use Rattle.bt_account.specs.Ended.{TookAll};
ghost use Rattle.bt_carry.specs.Account.{AllTell};
ghost use Rattle.bt_carry.specs.Order.{AllOrdered};
ghost use Rattle.bt_floor.specs.declared.making.Parts.{Parts};
ghost use Rattle.bt_runner.specs.Ran.{HasRun, ending_as};
ghost use Rattle.bt_runner.specs.declared.run.Ran.{Ran};

use bt_demand::derive::Derive;
use bt_ports::outside::{Answerer, Clock, Intake, Sink};

/// A law: a run in which nothing failed delivered all that it took. Each item has one answer, an acknowledgement; each
/// sink has accepted exactly the records that the parts of the transactions owe, and refused none; where the plan has no
/// holds, in input order. The call does nothing.
pub fn clean_runs_deliver<I: Intake, K: Sink, A: Answerer, C: Clock, D: Derive>()
    ensures { (plan : D) (p : Parts I K A C) (r : Ran I K A C)
        → HasRun ⟦<I as Intake>⟧ ⟦<K as Sink>⟧ ⟦<A as Answerer>⟧ ⟦<C as Clock>⟧ ⟦<D as Derive>⟧ plan p r
        → AllTell ⟦<I as Intake>⟧ ⟦<K as Sink>⟧ ⟦<A as Answerer>⟧ ⟦<C as Clock>⟧ (ending_as plan r) r.parts.sinks.list r.parts.answerer
        → WentWell ⟦<I as Intake>⟧ ⟦<K as Sink>⟧ ⟦<C as Clock>⟧ ⟦<D as Derive>⟧ plan r
        → AllDelivered ⟦<I as Intake>⟧ ⟦<K as Sink>⟧ ⟦<A as Answerer>⟧ ⟦<C as Clock>⟧ ⟦<D as Derive>⟧ plan r }
{}

/// A law: a run that ended by the input's end took all batches that the intake had left, and so did one that ended by a
/// line that is too long or by the bound, of those before it. The call does nothing.
pub fn runs_to_the_end_take_all<I: Intake, K: Sink, A: Answerer, C: Clock, D: Derive>()
    ensures { (plan : D) (p : Parts I K A C) (r : Ran I K A C)
        → HasRun ⟦<I as Intake>⟧ ⟦<K as Sink>⟧ ⟦<A as Answerer>⟧ ⟦<C as Clock>⟧ ⟦<D as Derive>⟧ plan p r
        → IsTrue (I.tells r.parts.intake)
        → TookAll ⟦<I as Intake>⟧ p r }
{}

/// A law: where the plan has no holds, the records of each sink are in input order: by transaction, within one by part, and
/// within a part by the places of their leaves. The answers are given by transaction, within one by part, and by each part
/// in the order of the items. The call does nothing.
pub fn leaves_keep_input_order<I: Intake, K: Sink, A: Answerer, C: Clock, D: Derive>()
    ensures { (plan : D) (p : Parts I K A C) (r : Ran I K A C)
        → HasRun ⟦<I as Intake>⟧ ⟦<K as Sink>⟧ ⟦<A as Answerer>⟧ ⟦<C as Clock>⟧ ⟦<D as Derive>⟧ plan p r
        → AllTell ⟦<I as Intake>⟧ ⟦<K as Sink>⟧ ⟦<A as Answerer>⟧ ⟦<C as Clock>⟧ (ending_as plan r) r.parts.sinks.list r.parts.answerer
        → D.policies plan ≡ []
        → AllOrdered ⟦<I as Intake>⟧ ⟦<K as Sink>⟧ ⟦<A as Answerer>⟧ ⟦<C as Clock>⟧ ⟦<D as Derive>⟧ (ending_as plan r) r.parts.sinks.list r.parts.answerer }
{}
