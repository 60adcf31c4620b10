//! Opening the answers.
ghost use Rattle.std.specs.Prelude.{◌≡◌, ◌+◌, ◌∷◌, [], length, IfOk, IsTrue, option_map, string_bytes};
ghost use Rattle.bt_commands.specs.Lines.{failure_line};
ghost use Rattle.bt_openings.specs.Objects.{FreshAnswerer};
ghost use Rattle.bt_openings.specs.Openings.{Opens};
ghost use Rattle.bt_openings.specs.Plan.{answers_opening};

use crate::stop::{Stop, without_memory};
use bt_ports::outside::Answerer;
use bt_ports::parts::Opened;
use bt_ports::world::World;
use std::alloc::{AllocError, Global};

// The line that says that the answers can't be opened.
fn no_answers_line(alloc: Global, path: Option<&str>) -> Result<String, AllocError>
    ensures { IfOk result (λ line. string_bytes line ≡ failure_line (answers_opening (option_map (λ p. p.now) path.entry))) }
{
    let name = path.unwrap_or("-");
    format!(in alloc; "answers {name}: cannot open")
}

/// Opens the answers, with their file where there is one.
pub fn open_answers<W: World>(
    alloc: Global,
    path: Option<&str>,
    world: &mut W,
) -> Result<W::A, Stop>
    ensures opens { Opens ⟦<W as World>⟧ (answers_opening (option_map (λ p. p.now) path.entry) ∷ []) result world.old world.new }
    ensures placed { IsTrue (W.tells world.new) → IfOk result (λ answerer. W.A.place answerer ≡ length (W.tale world.old).calls + 1) }
    ensures stdin { IsTrue (W.tells world.new) → (W.tale world.new).stdin ≡ (W.tale world.old).stdin }
    ensures fresh { IfOk result (FreshAnswerer ⟦<W::A as Answerer>⟧) }
{
    let line = match no_answers_line(alloc, path) {
        Ok(line) => line,
        Err(_) => return Err(without_memory(world)),
    };
    match world.open_answers(path) {
        Opened::Got(answerer) => Ok(answerer),
        Opened::Failed => {
            world.err(line.as_bytes());
            Err(Stop::Failed)
        }
        Opened::NoMemory => Err(without_memory(world)),
    }
}
