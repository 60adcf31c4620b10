//! What a run opens before it begins, each once and in the order of its plan.
ghost use Rattle.std.specs.Prelude.{◌≡◌, ◌+◌, ◌∷◌, [], length, IfOk, IsTrue, option_map, string_bytes};
ghost use Rattle.bt_commands.specs.Calls.{source_opening};
ghost use Rattle.bt_commands.specs.Lines.{failure_line, no_memory_line};
ghost use Rattle.bt_commands.specs.Outside.{SaysOnly};
ghost use Rattle.bt_run.specs.Inside.{MakesCall};
ghost use Rattle.bt_run.specs.Plan.{sink_opening, answers_opening};

use crate::halt::Halt;
use bt_config_file::out_of_memory;
use bt_ports::outside::{Answerer, Sink, Source};
use bt_ports::parts::Opened;
use bt_ports::world::World;
use std::alloc::{AllocError, Global};

/// The objects that a run opens.
#[derive(Drop)]
pub(crate) struct Opening<S, K, A> {
    pub(crate) sink: K,
    pub(crate) answerer: A,
    pub(crate) source: S,
}

/// Says that memory is wanting.
pub(crate) fn without_memory<W: World>(world: &mut W) -> Halt
    ensures halt { result ≡ Halt.NoMemory }
    ensures says { SaysOnly ⟦<W as World>⟧ (no_memory_line ∷ []) world.old world.new }
{
    out_of_memory(world);
    Halt::NoMemory
}

/// Opens the sink, which writes a line feed after each message.
pub(crate) fn open_sink<W: World>(world: &mut W) -> Result<W::K, Halt>
    ensures makes { MakesCall ⟦<W as World>⟧ 1 sink_opening (W.tale world.old).stdin result world.old world.new }
    ensures placed { IsTrue (W.tells world.new) → IfOk result (λ sink. W.K.place sink ≡ length (W.tale world.old).calls + 1) }
    ensures fresh { IfOk result (λ sink. (W.K.faults sink ≡ 0) × (IsTrue (W.K.tells sink) → (W.K.accepted sink ≡ []) × (W.K.refused sink ≡ []))) }
{
    match world.open_sink("stdout", b"\n") {
        Opened::Got(sink) => Ok(sink),
        Opened::Failed => {
            world.err(b"sink stdout: cannot open");
            Err(Halt::Failed(1))
        }
        Opened::NoMemory => Err(without_memory(world)),
    }
}

// The line that says that the answers can't be opened.
fn no_answers_line(alloc: Global, answers: Option<&str>) -> Result<String, AllocError>
    ensures { IfOk result (λ line. string_bytes line ≡ failure_line (answers_opening (option_map (λ path. path.now) answers.entry))) }
{
    let name = answers.unwrap_or("-");
    format!(in alloc; "answers {name}: cannot open")
}

/// Opens the answers, with their file where there is one.
pub(crate) fn open_answers<W: World>(
    alloc: Global,
    answers: Option<&str>,
    world: &mut W,
) -> Result<W::A, Halt>
    ensures makes { MakesCall ⟦<W as World>⟧ 2 (answers_opening (option_map (λ path. path.now) answers.entry)) (W.tale world.old).stdin result world.old world.new }
    ensures placed { IsTrue (W.tells world.new) → IfOk result (λ answerer. W.A.place answerer ≡ length (W.tale world.old).calls + 1) }
    ensures fresh { IfOk result (λ answerer. (W.A.faults answerer ≡ 0) × (IsTrue (W.A.tells answerer) → W.A.calls answerer ≡ [])) }
{
    let no_answers = match no_answers_line(alloc, answers) {
        Ok(line) => line,
        Err(_) => return Err(without_memory(world)),
    };
    match world.open_answers(answers) {
        Opened::Got(answerer) => Ok(answerer),
        Opened::Failed => {
            world.err(no_answers.as_bytes());
            Err(Halt::Failed(2))
        }
        Opened::NoMemory => Err(without_memory(world)),
    }
}

/// Opens the source.
pub(crate) fn open_source<W: World>(world: &mut W) -> Result<W::S, Halt>
    ensures makes { MakesCall ⟦<W as World>⟧ 3 source_opening [] result world.old world.new }
    ensures placed { IsTrue (W.tells world.new) → IfOk result (λ source. W.S.place source ≡ length (W.tale world.old).calls + 1) }
    ensures bytes { IsTrue (W.tells world.new) → IfOk result (λ source. IsTrue (W.S.tells source) → W.S.bytes source ≡ (W.tale world.old).stdin) }
    ensures fresh { IfOk result (λ source. (W.S.faults source ≡ 0) × (IsTrue (W.S.tells source) → W.S.taken source ≡ 0)) }
{
    match world.open_source("stdin") {
        Opened::Got(source) => Ok(source),
        Opened::Failed => {
            world.err(b"source stdin: cannot open");
            Err(Halt::Failed(3))
        }
        Opened::NoMemory => Err(without_memory(world)),
    }
}
