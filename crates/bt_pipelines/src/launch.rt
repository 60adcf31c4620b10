//! A run from its openings to its report.
ghost use Rattle.std.specs.Prelude.{◌≡◌, ◌≤◌, ◌∷◌, [], length, option_map};
ghost use Rattle.bt_carry.specs.Calls.{ReadsItems};
ghost use Rattle.bt_commands.specs.Lines.{no_memory_line};
ghost use Rattle.bt_commands.specs.Outside.{SaysOnly};
ghost use Rattle.bt_pipelines.specs.Launched.{Launches};

use crate::finish::finish;
use bt_commands::limits::INPUT_BOUND;
use bt_demand::derive::Derive;
use bt_duties::report::Report;
use bt_floor::making::Parts;
use bt_intake::intake::LineIntake;
use bt_intake::policy::Policy;
use bt_openings::opening::{Opening, open_run};
use bt_openings::stop::Stop;
use bt_ports::NoMemory;
use bt_ports::blob::Blob;
use bt_ports::outside::{Answerer, Clock, Intake, Sink, Source};
use bt_ports::text::Text;
use bt_ports::world::World;
use std::alloc::Global;
use std::sync::Arc;

/// How an input is cut: its lines end with the delimiter, and its batches by the policy.
#[derive(Drop)]
pub struct Cuts {
    pub delimiter: Blob,
    pub policy: Policy,
}

// Says that memory is wanting.
fn without_memory<W: World>(world: &mut W) -> Stop
    ensures stop { result ≡ Stop.NoMemory }
    ensures says { SaysOnly ⟦<W as World>⟧ (no_memory_line ∷ []) world.old world.new }
{
    world.err(b"no memory");
    Stop::NoMemory
}

/// Opens the sinks of these names with their closing bytes, the answers and the sources (files of these paths, or else the
/// standard input), runs the plan over their lines, hands all of it to `keep`, and says the report.
///
/// # Errors
///
/// The first opening that failed, or want of memory before the run. Nothing is kept then. A line of `err` says it.
pub fn launch<W: World, D: Derive>(
    alloc: Global,
    plan: &Arc<D>,
    names: &[Text],
    ends: &[Blob],
    answers: Option<&str>,
    files: Option<&[Text]>,
    cuts: Cuts,
    window: u32,
    world: &mut W,
) -> Result<Report, Stop>
    requires ends { length names.now ≡ length ends.now }
    requires sinks { length names.now ≡ D.sinks plan.now.value }
    requires window { 1 ≤ window }
    requires reads { ReadsItems ⟦<D as Derive>⟧ plan.now.value }
    requires delimiter { (1 ≤ length cuts.delimiter) × (length cuts.delimiter ≤ 16) }
    ensures { Launches ⟦<W as World>⟧ ⟦<W::S as Source>⟧ ⟦<LineIntake<W::S> as Intake>⟧ ⟦<W::K as Sink>⟧ ⟦<W::A as Answerer>⟧ ⟦<W::C as Clock>⟧ ⟦<D as Derive>⟧
        names.now ends.now (option_map (λ p. p.now) answers.entry) (option_map (λ f. f.now) files.entry) cuts plan.now.value result world.old world.new }
{
    let opening = match open_run(alloc, names, ends, answers, files, world) {
        Ok(opening) => opening,
        Err(stop) => return Err(stop),
    };
    let clock = world.take_clock();
    let Opening {
        sinks,
        answerer,
        sources,
    } = opening;
    let Cuts { delimiter, policy } = cuts;
    let intake = match LineIntake::make(alloc, sources, delimiter, policy, INPUT_BOUND) {
        Ok(intake) => intake,
        Err((NoMemory, _)) => return Err(without_memory(world)),
    };
    let parts = Parts {
        intake,
        sinks,
        answerer,
        clock,
    };
    match finish(alloc, plan, parts, window, INPUT_BOUND, world) {
        Ok(report) => Ok(report),
        Err(NoMemory) => Err(without_memory(world)),
    }
}
