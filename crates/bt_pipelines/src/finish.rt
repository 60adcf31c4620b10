//! The end of a run.
ghost use Rattle.std.specs.Prelude.{◌≡◌, ◌≤◌, ◌<◌, ◌-◌, ◌^◌, IfOk, IfErr, IsTrue, None, Some, length};
ghost use Rattle.bt_carry.specs.Calls.{ReadsItems};
ghost use Rattle.bt_commands.specs.Outside.{SameCounts, StillTold};
ghost use Rattle.bt_floor.specs.Calls.{NothingAnswered, NothingPut};
ghost use Rattle.bt_intake.specs.Answers.{Standing};
ghost use Rattle.bt_pipelines.specs.Finished.{Finishes};
ghost use Rattle.bt_ports.specs.World.{once_more};
ghost use Rattle.bt_runner.specs.Ran.{Unread};

use bt_demand::derive::Derive;
use bt_duties::report::Report;
use bt_floor::making::Parts;
use bt_intake::intake::LineIntake;
use bt_ports::NoMemory;
use bt_ports::outside::{Answerer, Clock, Intake, Sink, Source};
use bt_ports::parts::Ends;
use bt_ports::world::World;
use bt_reports::report::say_report;
use bt_runner::run::{Ran, run_plan};
use std::alloc::Global;
use std::sync::Arc;

/// How many messages may wait in all holds together.
pub const POOL: u32 = 65_536;

// Hands all that a run was made of to the world.
fn keep<W: World>(parts: Parts<LineIntake<W::S>, W::K, W::A, W::C>, world: &mut W)
    ensures told { StillTold ⟦<W as World>⟧ world.old world.new }
    ensures counts { SameCounts ⟦<W as World>⟧ world.old world.new }
    ensures keeps { IsTrue (W.tells world.new) → W.tale world.new ≡ record (W.tale world.old) { keeps = once_more (W.tale world.old).keeps; kept = Some (record { sources = parts.intake.sources; sinks = parts.sinks; answerer = parts.answerer; clock = parts.clock }) } }
    ensures standing { Standing ⟦<W::S as Source>⟧ parts.intake }
{
    let Parts {
        intake,
        sinks,
        answerer,
        clock,
    } = parts;
    world.keep(Ends {
        sources: intake.into_sources(),
        sinks,
        answerer,
        clock,
    });
}

/// Runs the plan over what was opened, with a window of so many transactions, hands all of it to `keep`, and says the report,
/// where the input takes `bound` bytes at most.
///
/// # Errors
///
/// Where there is no memory for the run before anything was taken. Nothing is kept or said then, and the parts are dropped.
pub fn finish<W: World, D: Derive>(
    alloc: Global,
    plan: &Arc<D>,
    parts: Parts<LineIntake<W::S>, W::K, W::A, W::C>,
    window: u32,
    bound: u64,
    world: &mut W,
) -> Result<Report, NoMemory>
    requires window { 1 ≤ window }
    requires sinks { length parts.sinks.list ≡ D.sinks plan.now.value }
    requires goes { parts.intake.stopped ≡ None }
    requires bounded { parts.intake.bound - parts.intake.items < 2 ^ 56 }
    requires unwritten { NothingPut ⟦<W::K as Sink>⟧ parts.sinks.list }
    requires unanswered { NothingAnswered ⟦<W::A as Answerer>⟧ parts.answerer }
    requires unread { Unread ⟦<W::C as Clock>⟧ parts.clock }
    requires reads { ReadsItems ⟦<D as Derive>⟧ plan.now.value }
    ensures ok { IfOk result (λ report. Finishes ⟦<W as World>⟧ ⟦<W::S as Source>⟧ ⟦<LineIntake<W::S> as Intake>⟧ ⟦<W::K as Sink>⟧ ⟦<W::A as Answerer>⟧ ⟦<W::C as Clock>⟧ ⟦<D as Derive>⟧ bound plan.now.value parts report world.old world.new) }
    ensures err { IfErr result (λ _. world.new ≡ world.old) }
{
    match run_plan(alloc, plan, parts, window, POOL) {
        Ok(ran) => {
            let Ran { parts, report } = ran;
            keep(parts, world);
            say_report(bound, &report, world);
            Ok(report)
        }
        Err(NoMemory) => Err(NoMemory),
    }
}
