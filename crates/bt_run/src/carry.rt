//! A run from its first transaction to its end.
ghost use Rattle.std.specs.Prelude.{◌≡◌, [], None, IsSome, true};
ghost use Rattle.bt_desk.specs.Calls.{SameRun};
ghost use Rattle.bt_desk.specs.Stands.{Stands};
ghost use Rattle.bt_run.specs.Inside.{CarryFaults, SamePlaces};

use bt_desk::desk::Desk;
use bt_desk::parts::Admit;
use bt_ports::outside::{Answerer, Clock, Intake, Sink};

/// Takes and delivers all that the intake gives, and closes the run.
pub(crate) fn carry<I: Intake, K: Sink, A: Answerer, C: Clock>(desk: &mut Desk<I, K, A, C>)
    requires idle { desk.old.out ≡ [] }
    requires goes { desk.old.report.ending ≡ None }
    ensures idle { desk.new.out ≡ [] }
    ensures finished { desk.new.finished ≡ true }
    ensures run { SameRun ⟦<I as Intake>⟧ ⟦<C as Clock>⟧ desk.old desk.new }
    ensures faults { CarryFaults desk.new.report.ending (I.faults desk.old.intake) (I.faults desk.new.intake) }
    ensures places { SamePlaces ⟦<K as Sink>⟧ ⟦<A as Answerer>⟧ desk.old desk.new }
    ensures stands { Stands ⟦<I as Intake>⟧ ⟦<K as Sink>⟧ ⟦<A as Answerer>⟧ ⟦<C as Clock>⟧ desk.new }
{
    'carry: while let Admit::Job(txn) = desk.admit() {
        desk.deliver(txn);
    }
    desk.finish();
}
