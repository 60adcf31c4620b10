//! Why a configuration has no plan.

use bt_ports::NoMemory;
use bt_schema::Lints;

/// Why a configuration has no plan.
#[derive(Drop)]
pub enum CompileFault {
    /// Its lints, or the one lint of a pattern that is refused. There is one at least.
    Lints(Lints),
    /// Memory ran out.
    NoMemory,
}

impl From<NoMemory> for CompileFault {
    ghost use Rattle.std.specs.Prelude.{◌≡◌};
    ghost use Rattle.bt_plan.specs.declared.fault.CompileFault.TheVariants as fault;

    ghost from_gives = { λ _ f. f ≡ fault.NoMemory };

    fn from(_: NoMemory) -> CompileFault {
        CompileFault::NoMemory
    }
}
