//! A run of a configuration that names its parts.
ghost use Rattle.std.specs.Prelude.{◌≡◌, ◌∷◌, [], option_map};
ghost use Rattle.bt_commands.specs.Outside.{SaysOnly, over};
ghost use Rattle.bt_configured.specs.Configured.{Configured, not_built_line};
ghost use Rattle.bt_configured.specs.Inside.{IsHaltOf, Refuses, refused_lines};
ghost use Rattle.bt_input_plan.specs.Compiled.{IsInputOf};
ghost use Rattle.bt_plan.specs.Compiled.{IsFaultOf, IsPlanOf};

use crate::halted::Halted;
use crate::lines::lines_of;
use crate::running::{run_lines, without_memory};
use bt_config::{Config, Lints};
use bt_config_file::say_lints;
use bt_duties::report::Report;
use bt_plan::{CompileFault, InputPlan, Plan, compile};
use bt_ports::NoMemory;
use bt_ports::outside::{Answerer, Clock, Sink, Source};
use bt_ports::world::World;
use std::alloc::Global;

fn refuse<W: World>(alloc: Global, lints: Lints, world: &mut W) -> Halted
    ensures refuses { Refuses lints result }
    ensures says { SaysOnly ⟦<W as World>⟧ (refused_lines result) world.old world.new }
{
    match say_lints(alloc, lints.as_slice(), world) {
        Ok(()) => Halted::Lints(lints),
        Err(NoMemory) => without_memory(world),
    }
}

// Says why a configuration has no plan.
fn say_fault<W: World>(alloc: Global, fault: CompileFault, world: &mut W) -> Halted
    ensures halt { IsHaltOf fault result }
    ensures says { SaysOnly ⟦<W as World>⟧ (refused_lines result) world.old world.new }
{
    match fault {
        CompileFault::Lints(lints) => refuse(alloc, lints, world),
        CompileFault::NoMemory => without_memory(world),
    }
}

fn not_built<W: World>(world: &mut W) -> Halted
    ensures halted { result ≡ Halted.NotBuilt }
    ensures says { SaysOnly ⟦<W as World>⟧ (not_built_line ∷ []) world.old world.new }
{
    world.err(b"config: not built");
    Halted::NotBuilt
}

// Runs the plan and the input of a configuration.
fn run_plan<W: World>(
    alloc: Global,
    config: &Config,
    plan: Plan,
    input: InputPlan,
    answers: Option<&str>,
    world: &mut W,
) -> Result<Report, Halted>
    requires plan { IsPlanOf config.now.doc plan }
    requires input { IsInputOf config.now.doc input }
    ensures { Configured (over ⟦<W as World>⟧ ⟦<W::S as Source>⟧ ⟦<W::K as Sink>⟧ ⟦<W::A as Answerer>⟧ ⟦<W::C as Clock>⟧) config.now.doc (option_map (λ p. p.now) answers.entry) result world.old world.new }
{
    match lines_of(input) {
        Some(lines) => run_lines(alloc, plan, lines, answers, world),
        None => Err(not_built(world)),
    }
}

/// Runs a configuration with one worker, and writes the answers to the file `answers` where there is one.
///
/// It compiles the configuration, opens the sinks of its output in order, the answers and the sources of its input, each once;
/// carries each batch of the input through the processors to the output, answers each item by what became of the messages
/// derived from it, hands all that was opened to `keep`, and says the report. Not promised: what a real file or stream holds, and
/// how long a read waits.
///
/// # Errors
///
/// Lints, an input that doesn't run yet, the first opening that failed, or want of memory before anything was taken. Nothing is
/// kept then, and lines of `err` say it.
pub fn run_configured<W: World>(
    alloc: Global,
    config: &Config,
    answers: Option<&str>,
    world: &mut W,
) -> Result<Report, Halted>
    ensures { Configured (over ⟦<W as World>⟧ ⟦<W::S as Source>⟧ ⟦<W::K as Sink>⟧ ⟦<W::A as Answerer>⟧ ⟦<W::C as Clock>⟧) config.now.doc (option_map (λ p. p.now) answers.entry) result world.old world.new }
{
    match compile(alloc, config) {
        Ok((plan, input)) => run_plan(alloc, config, plan, input, answers, world),
        Err(fault) => Err(say_fault(alloc, fault, world)),
    }
}
