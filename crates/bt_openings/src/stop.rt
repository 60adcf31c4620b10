//! Why the openings of a run stopped.
ghost use Rattle.std.specs.Prelude.{◌≡◌, ◌∷◌, []};
ghost use Rattle.bt_commands.specs.Lines.{no_memory_line};
ghost use Rattle.bt_commands.specs.Outside.{SaysOnly};

use bt_ports::world::World;

/// Why the openings of a run stopped. A line of `err` says it.
#[derive(Clone, Copy, Debug, PartialEq, Eq)]
pub enum Stop {
    /// An opening failed.
    Failed,
    /// Memory was wanting.
    NoMemory,
}

/// Says that memory is wanting.
pub(crate) fn without_memory<W: World>(world: &mut W) -> Stop
    ensures stop { result ≡ Stop.NoMemory }
    ensures says { SaysOnly ⟦<W as World>⟧ (no_memory_line ∷ []) world.old world.new }
{
    world.err(b"no memory");
    Stop::NoMemory
}
