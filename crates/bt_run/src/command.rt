//! The command `run`.
ghost use Rattle.std.specs.Prelude.{◌≡◌, ◌∷◌, [], None, Some, Result, IfOk, IsTrue, IsSome, option_map, true};
ghost use Rattle.bt_desk.specs.Calls.{IsUnread};
ghost use Rattle.bt_desk.specs.Stands.{Stands};
ghost use Rattle.bt_commands.specs.Inputs.{Standing};
ghost use Rattle.bt_ports.specs.World.{once_more};
ghost use Rattle.bt_commands.specs.Outside.{StillTold, SameCounts, over};
ghost use Rattle.bt_run.specs.Inside.{Begun, IsBegun, IsFresh, Started, Starts, Completes};
ghost use Rattle.bt_run.specs.Promise.{RunEnds, RunPromise};
ghost use Rattle.bt_run.specs.declared.halt.Halt.{Halt};

use crate::carry::carry;
use crate::configuration::read_config;
use crate::halt::Halt;
use crate::openings::{Opening, open_answers, open_sink, open_source, without_memory};
use crate::report::{report_status, say_report};
use bt_commands::input::LineInput;
use bt_commands::limits::INPUT_BOUND;
use bt_commands::status::Status;
use bt_desk::desk::Desk;
use bt_desk::parts::Parts;
use bt_desk::report::Report;
use bt_ports::NoMemory;
use bt_ports::outside::{Answerer, Clock, Intake, Sink, Source};
use bt_ports::parts::{Ends, Named};
use bt_ports::sequence::Sequence;
use bt_ports::world::World;
use std::alloc::Global;

// The desk over what was opened.
fn begin<S: Source, K: Sink, A: Answerer, C: Clock>(
    alloc: Global,
    opening: Opening<S, K, A>,
    clock: C,
) -> Result<Desk<LineInput<S>, K, A, C>, NoMemory>
    requires fresh { IsFresh ⟦<S as Source>⟧ ⟦<K as Sink>⟧ ⟦<A as Answerer>⟧ opening }
    requires unread { IsUnread ⟦<C as Clock>⟧ clock }
    ensures { IfOk result (Begun opening clock) }
{
    let Opening {
        sink,
        answerer,
        source,
    } = opening;
    let mut sinks = Sequence::new(alloc);
    sinks.push(sink)?;
    let mut sources = Sequence::new(alloc);
    sources.push(Named { path: None, source })?;
    let intake = LineInput::make(alloc, sources, INPUT_BOUND)?;
    let parts = Parts {
        intake,
        sinks,
        answerer,
        clock,
    };
    Ok(Desk::make(alloc, parts)?)
}

// Reads, opens and makes all that a run needs.
fn start<W: World>(
    alloc: Global,
    config: &str,
    answers: Option<&str>,
    world: &mut W,
) -> Result<Desk<LineInput<W::S>, W::K, W::A, W::C>, Halt>
    ensures starts { Starts ⟦<W as World>⟧ config.now (option_map (λ path. path.now) answers.entry) result world.old world.new }
    ensures begun { IfOk result (IsBegun ⟦<W::S as Source>⟧) }
    ensures started { IsTrue (W.tells world.new)
        → IfOk result (λ desk. Started (over ⟦<W as World>⟧ ⟦<W::S as Source>⟧ ⟦<W::K as Sink>⟧ ⟦<W::A as Answerer>⟧ ⟦<W::C as Clock>⟧) config.now (option_map (λ path. path.now) answers.entry) desk (W.tale world.old) (W.tale world.new)) }
{
    read_config(alloc, config, world)?;
    let sink = open_sink(world)?;
    let answerer = open_answers(alloc, answers, world)?;
    let source = open_source(world)?;
    let clock = world.take_clock();
    let opening = Opening {
        sink,
        answerer,
        source,
    };
    match begin(alloc, opening, clock) {
        Ok(desk) => Ok(desk),
        Err(NoMemory) => Err(without_memory(world)),
    }
}

// Hands all that was opened to the world.
fn hand_back<W: World>(desk: Desk<LineInput<W::S>, W::K, W::A, W::C>, world: &mut W)
    requires { desk.finished ≡ true }
    ensures told { StillTold ⟦<W as World>⟧ world.old world.new }
    ensures counts { SameCounts ⟦<W as World>⟧ world.old world.new }
    ensures keeps { IsTrue (W.tells world.new) → W.tale world.new ≡ record (W.tale world.old) { keeps = once_more (W.tale world.old).keeps; kept = Some (record { sources = desk.intake.sources; sinks = desk.sinks; answerer = desk.answerer; clock = desk.clock }) } }
    ensures standing { Standing ⟦<W::S as Source>⟧ desk.intake }
    ensures stands { Stands ⟦<LineInput<W::S> as Intake>⟧ ⟦<W::K as Sink>⟧ ⟦<W::A as Answerer>⟧ ⟦<W::C as Clock>⟧ desk }
{
    let Parts {
        intake,
        sinks,
        answerer,
        clock,
    } = desk.into_parts();
    world.keep(Ends {
        sources: intake.into_sources(),
        sinks,
        answerer,
        clock,
    });
}

// Carries the run to its end, and hands all that was opened to the world.
fn complete<W: World>(mut desk: Desk<LineInput<W::S>, W::K, W::A, W::C>, world: &mut W) -> Report
    requires { IsBegun ⟦<W::S as Source>⟧ desk }
    ensures told { StillTold ⟦<W as World>⟧ world.old world.new }
    ensures counts { SameCounts ⟦<W as World>⟧ world.old world.new }
    ensures ended { IsSome result.ending }
    ensures keeps { IsTrue (W.tells world.new)
        → Completes (over ⟦<W as World>⟧ ⟦<W::S as Source>⟧ ⟦<W::K as Sink>⟧ ⟦<W::A as Answerer>⟧ ⟦<W::C as Clock>⟧) result desk (W.tale world.old) (W.tale world.new) }
{
    carry(&mut desk);
    let report = desk.report();
    hand_back(desk, world);
    report
}

// Runs the configuration, and gives the report, or what kept the run from beginning.
fn run<W: World>(
    alloc: Global,
    config: &str,
    answers: Option<&str>,
    world: &mut W,
) -> Result<Report, Halt>
    ensures ends { RunEnds (over ⟦<W as World>⟧ ⟦<W::S as Source>⟧ ⟦<W::K as Sink>⟧ ⟦<W::A as Answerer>⟧ ⟦<W::C as Clock>⟧)
        config.now (option_map (λ path. path.now) answers.entry) result world.old world.new }
    ensures ended { IfOk result (λ report. IsSome report.ending) }
{
    let desk = start(alloc, config, answers, world)?;
    let report = complete(desk, world);
    say_report(&report, world);
    Ok(report)
}

/// Runs the configuration in the file `config` with one worker, and writes the answers to the file `answers` where there
/// is one.
///
/// It reads the configuration, opens the sink `stdout`, the answers and the source `stdin`, carries each line of the source
/// to the sink as one record, answers each by what became of its record, hands all that was opened to `keep`, and says
/// the report. Not promised: what a real file or stream holds, and how long a read waits.
pub fn run_one<W: World>(
    alloc: Global,
    config: &str,
    answers: Option<&str>,
    world: &mut W,
) -> Status
    ensures { RunPromise (over ⟦<W as World>⟧ ⟦<W::S as Source>⟧ ⟦<W::K as Sink>⟧ ⟦<W::A as Answerer>⟧ ⟦<W::C as Clock>⟧)
        config.now (option_map (λ path. path.now) answers.entry) result world.old world.new }
{
    match run(alloc, config, answers, world) {
        Ok(report) => report_status(&report),
        Err(Halt::Failed(_)) => Status::Input,
        Err(Halt::Config(_)) => Status::Config,
        Err(Halt::NoMemory) => Status::Memory,
    }
}
