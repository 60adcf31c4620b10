//! The outside in memory, over which tests run.
//!
//! Each object is given the numbers of its calls that fail, counted from 1.
ghost use Rattle.std.specs.Prelude.{◌≡◌};
ghost use Rattle.bt_ports.specs.Memory.{is_named};

use crate::parts::Calls;

pub mod answerer;
pub mod clock;
pub mod printer;
pub mod sink;
pub mod source;
pub mod world;

/// Whether the list names call `n`.
pub(crate) fn names(calls: &Calls, n: u64) -> bool
    ensures { result ≡ is_named calls.now.list n }
{
    calls.as_slice().contains(&n)
}
