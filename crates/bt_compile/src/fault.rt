//! Why processors aren't made ready.

use bt_ports::NoMemory;
use bt_schema::Lint;

/// Why the processors that a pointer names aren't made ready.
#[derive(Drop)]
pub enum ProcsFault {
    /// The pointer names no list of processors.
    NotThere,
    /// The lint of the first text that isn't read, or has a pattern that is refused.
    Lint(Lint),
    /// Memory ran out.
    NoMemory,
}

impl From<NoMemory> for ProcsFault {
    ghost use Rattle.std.specs.Prelude.{◌≡◌};
    ghost use Rattle.bt_compile.specs.declared.fault.ProcsFault.TheVariants as fault;

    ghost from_gives = { λ _ f. f ≡ fault.NoMemory };

    fn from(_: NoMemory) -> ProcsFault {
        ProcsFault::NoMemory
    }
}
