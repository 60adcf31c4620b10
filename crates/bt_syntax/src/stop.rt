//! Why a reader stops.

use bt_ports::NoMemory;
use std::alloc::AllocError;

/// Why a reader gives nothing.
#[derive(Clone, Copy, Debug, PartialEq, Eq)]
pub enum Stop {
    /// The next token can't stand there, or there is none.
    Stuck,
    /// A bracket too many is open.
    Deep,
    /// Memory ran out.
    NoMemory,
}

impl From<AllocError> for Stop {
    ghost from_gives = { λ _ e. e ≡ NoMemory };

    ghost use Rattle.std.specs.Prelude.{◌≡◌};
    ghost use Rattle.bt_syntax.specs.declared.stop.Stop.TheVariants.{NoMemory};

    fn from(_: AllocError) -> Stop {
        Stop::NoMemory
    }
}

impl From<NoMemory> for Stop {
    ghost from_gives = { λ _ e. e ≡ NoMemory };

    ghost use Rattle.std.specs.Prelude.{◌≡◌};
    ghost use Rattle.bt_syntax.specs.declared.stop.Stop.TheVariants.{NoMemory};

    fn from(_: NoMemory) -> Stop {
        Stop::NoMemory
    }
}
