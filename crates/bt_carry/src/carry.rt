//! A run from its first transaction to its end.
ghost use Rattle.std.specs.Prelude.{◌≡◌, ◌≢◌, ◌<◌, ◌^◌, ◌≤◌, ◌+◌, [], length, false, true, None, IsSome, IsTrue};
ghost use Rattle.bt_carry.specs.Account.{Account, AllTell};
ghost use Rattle.bt_carry.specs.Calls.{EndedWith, GoesOn, ReadForEach, ReadsItems, Rests, Turned};
ghost use Rattle.bt_carry.specs.Order.{AddsInTurn, OrderedSoFar};
ghost use Rattle.bt_duties.specs.Duties.{duty_at};
ghost use Rattle.bt_duties.specs.Stands.{IsStanding};
ghost use Rattle.bt_floor.specs.Calls.{SameRun};
ghost use Rattle.bt_ports.specs.Faults.{last_count};
ghost use Rattle.bt_sound.specs.Transactions.{IsTransaction};

use bt_demand::derive::Derive;
use bt_duties::admit::Admit;
use bt_duties::desk::Desk;
use bt_ports::outside::{Answerer, Clock, Intake, Sink};
use bt_ports::parts::Txn;

// Delivers the parts that the plan derives for the transaction with which the duty is out.
fn deliver<I: Intake, K: Sink, A: Answerer, C: Clock, D: Derive>(
    plan: &D,
    desk: &mut Desk<I, K, A, C, D>,
    txn: &Txn,
)
    requires plan { desk.old.floor.outside.plan ≡ plan.now }
    requires reads { ReadsItems ⟦<D as Derive>⟧ plan.now }
    requires one { length desk.old.duties ≡ 1 }
    requires out { (duty_at desk.old.duties 0).number ≢ 0 }
    requires number { (duty_at desk.old.duties 0).number ≡ txn.now.number }
    requires items { (duty_at desk.old.duties 0).items ≡ length txn.now.items.list }
    requires is { IsTrue (I.tells desk.old.floor.outside.intake) → IsTrue (C.tells desk.old.floor.outside.clock) → C.made desk.old.floor.outside.clock < last_count → IsTransaction ⟦<I as Intake>⟧ ⟦<C as Clock>⟧ desk.old.floor.outside txn.now }
    ensures rests { Rests plan.now desk.new }
    ensures goes { GoesOn ⟦<I as Intake>⟧ ⟦<C as Clock>⟧ desk.old desk.new }
    ensures ending { desk.new.floor.outside.ending ≡ desk.old.floor.outside.ending }
    ensures taken { desk.new.floor.outside.taken ≡ desk.old.floor.outside.taken }
    ensures intake { desk.new.floor.outside.intake ≡ desk.old.floor.outside.intake }
    ensures stands { IsStanding ⟦<I as Intake>⟧ ⟦<K as Sink>⟧ ⟦<A as Answerer>⟧ ⟦<C as Clock>⟧ ⟦<D as Derive>⟧ desk.new }
    ensures adds { desk.old.floor.ledger.policies ≡ [] → AddsInTurn ⟦<K as Sink>⟧ ⟦<A as Answerer>⟧ txn.now.number (length txn.now.items.list) (D.parts plan.now txn.now) desk.old.floor desk.new.floor }
{
    let routes = plan.derive(txn);
    desk.deliver(0, routes);
}

// Takes and delivers the next transaction. It gives false where the run ended in place of one.
fn turn<I: Intake, K: Sink, A: Answerer, C: Clock, D: Derive>(
    plan: &D,
    desk: &mut Desk<I, K, A, C, D>,
) -> bool
    requires rests { Rests plan.now desk.old }
    requires reads { ReadsItems ⟦<D as Derive>⟧ plan.now }
    requires goes { desk.old.floor.outside.ending ≡ None }
    ensures rests { Rests plan.now desk.new }
    ensures goes { GoesOn ⟦<I as Intake>⟧ ⟦<C as Clock>⟧ desk.old desk.new }
    ensures turned { result ≡ true → Turned ⟦<I as Intake>⟧ desk.old desk.new }
    ensures bounded { desk.new.floor.outside.taken < 2 ^ 56 }
    ensures ended { result ≡ false → EndedWith desk.new.floor.outside.ending (I.faults desk.old.floor.outside.intake) (I.faults desk.new.floor.outside.intake) }
    ensures order { ReadForEach ⟦<C as Clock>⟧ desk.old.floor.outside
        → OrderedSoFar ⟦<I as Intake>⟧ ⟦<K as Sink>⟧ ⟦<A as Answerer>⟧ ⟦<C as Clock>⟧ ⟦<D as Derive>⟧ desk.old.floor
        → OrderedSoFar ⟦<I as Intake>⟧ ⟦<K as Sink>⟧ ⟦<A as Answerer>⟧ ⟦<C as Clock>⟧ ⟦<D as Derive>⟧ desk.new.floor }
{
    match desk.admit(0) {
        Admit::Job(txn) => {
            deliver(plan, desk, &txn);
            true
        }
        _ => false,
    }
}

/// Takes and delivers all that the intake gives, and closes the run.
///
/// Where intake, clock, sinks and answerer tell, the account of the run holds: each transaction that was taken is closed,
/// each of its items has one answer, by the records of its parts, and the records are those of the asked leaves. Where the
/// plan has no holds, the records of each sink stay in input order, and the answers in that of the transactions and their
/// parts. It takes memory only in the intake and for the parts of a transaction; where there is none for these, that transaction's
/// items are refused. How long a read or a write waits isn't promised.
pub fn carry<I: Intake, K: Sink, A: Answerer, C: Clock, D: Derive>(
    plan: &D,
    desk: &mut Desk<I, K, A, C, D>,
)
    requires rests { Rests plan.now desk.old }
    requires reads { ReadsItems ⟦<D as Derive>⟧ plan.now }
    requires goes { desk.old.floor.outside.ending ≡ None }
    requires begins { ReadForEach ⟦<C as Clock>⟧ desk.old.floor.outside }
    ensures finished { desk.new.finished ≡ true }
    ensures ended { IsSome desk.new.floor.outside.ending }
    ensures faults { EndedWith desk.new.floor.outside.ending (I.faults desk.old.floor.outside.intake) (I.faults desk.new.floor.outside.intake) }
    ensures run { SameRun ⟦<I as Intake>⟧ ⟦<C as Clock>⟧ desk.old.floor.outside desk.new.floor.outside }
    ensures read { ReadForEach ⟦<C as Clock>⟧ desk.new.floor.outside }
    ensures account { AllTell ⟦<I as Intake>⟧ ⟦<K as Sink>⟧ ⟦<A as Answerer>⟧ ⟦<C as Clock>⟧ desk.new.floor.outside desk.new.floor.sinks desk.new.floor.answerer
        → Account ⟦<I as Intake>⟧ ⟦<K as Sink>⟧ ⟦<A as Answerer>⟧ ⟦<C as Clock>⟧ ⟦<D as Derive>⟧ desk.new.floor.outside desk.new.floor.sinks desk.new.floor.answerer desk.new.floor.counts }
    ensures stands { IsStanding ⟦<I as Intake>⟧ ⟦<K as Sink>⟧ ⟦<A as Answerer>⟧ ⟦<C as Clock>⟧ ⟦<D as Derive>⟧ desk.new }
    ensures order { OrderedSoFar ⟦<I as Intake>⟧ ⟦<K as Sink>⟧ ⟦<A as Answerer>⟧ ⟦<C as Clock>⟧ ⟦<D as Derive>⟧ desk.old.floor
        → OrderedSoFar ⟦<I as Intake>⟧ ⟦<K as Sink>⟧ ⟦<A as Answerer>⟧ ⟦<C as Clock>⟧ ⟦<D as Derive>⟧ desk.new.floor }
{
    'carry: while turn(plan, desk) {}
    desk.finish();
}
