//! A run of a plan over lines.
ghost use Rattle.std.specs.Prelude.{◌≡◌, ◌≤◌, ◌∷◌, [], length, option_map};
ghost use Rattle.bt_commands.specs.Lines.{no_memory_line};
ghost use Rattle.bt_commands.specs.Outside.{SaysOnly, over};
ghost use Rattle.bt_configured.specs.Inside.{Runs, halted_by};
ghost use Rattle.bt_configured.specs.Lines.{names_in};

use crate::halted::Halted;
use crate::lines::Lines;
use bt_duties::report::Report;
use bt_input_plan::Names;
use bt_openings::stop::Stop;
use bt_pipelines::launch::launch;
use bt_ports::outside::{Answerer, Clock, Sink, Source};
use bt_ports::text::Text;
use bt_ports::world::World;
use bt_routing::Plan;
use std::alloc::Global;
use std::sync::Arc;

/// Says that memory is wanting.
pub(crate) fn without_memory<W: World>(world: &mut W) -> Halted
    ensures halted { result ≡ Halted.NoMemory }
    ensures says { SaysOnly ⟦<W as World>⟧ (no_memory_line ∷ []) world.old world.new }
{
    world.err(b"no memory");
    Halted::NoMemory
}

fn paths(files: &Option<Names>) -> Option<&[Text]>
    ensures { option_map (λ f. f.now) result ≡ names_in files.now }
{
    match files {
        Some(names) => Some(names.as_slice()),
        None => None,
    }
}

fn halted(stop: Stop) -> Halted
    ensures { result ≡ halted_by stop }
{
    match stop {
        Stop::Failed => Halted::Failed,
        Stop::NoMemory => Halted::NoMemory,
    }
}

fn run_shared<W: World>(
    alloc: Global,
    plan: &Arc<Plan>,
    lines: Lines,
    answers: Option<&str>,
    world: &mut W,
) -> Result<Report, Halted>
    requires ends { length plan.now.value.sinks.list ≡ length plan.now.value.ends.list }
    requires window { 1 ≤ plan.now.value.window }
    requires delimiter { (1 ≤ length lines.cuts.delimiter) × (length lines.cuts.delimiter ≤ 16) }
    ensures { Runs (over ⟦<W as World>⟧ ⟦<W::S as Source>⟧ ⟦<W::K as Sink>⟧ ⟦<W::A as Answerer>⟧ ⟦<W::C as Clock>⟧) plan.now.value lines (option_map (λ p. p.now) answers.entry) result world.old world.new }
{
    let Lines { files, cuts } = lines;
    match launch(
        alloc,
        plan,
        plan.sinks().as_slice(),
        plan.ends().as_slice(),
        answers,
        paths(&files),
        cuts,
        plan.window(),
        world,
    ) {
        Ok(report) => Ok(report),
        Err(stop) => Err(halted(stop)),
    }
}

/// Opens what the plan and the lines need, carries the run to its end, hands all of it to `keep`, and says the report, or why there
/// is no run.
pub(crate) fn run_lines<W: World>(
    alloc: Global,
    plan: Plan,
    lines: Lines,
    answers: Option<&str>,
    world: &mut W,
) -> Result<Report, Halted>
    requires ends { length plan.sinks.list ≡ length plan.ends.list }
    requires window { 1 ≤ plan.window }
    requires delimiter { (1 ≤ length lines.cuts.delimiter) × (length lines.cuts.delimiter ≤ 16) }
    ensures { Runs (over ⟦<W as World>⟧ ⟦<W::S as Source>⟧ ⟦<W::K as Sink>⟧ ⟦<W::A as Answerer>⟧ ⟦<W::C as Clock>⟧) plan lines (option_map (λ p. p.now) answers.entry) result world.old world.new }
{
    match Arc::new(alloc, plan) {
        Ok(plan) => run_shared(alloc, &plan, lines, answers, world),
        Err(_) => Err(without_memory(world)),
    }
}
