//! Why a case has no outcome.

use bt_ports::NoMemory;
use std::alloc::AllocError;

/// Why a case has no outcome.
#[derive(Drop)]
pub enum Wrong {
    /// The lines are no case.
    NoCase,
    /// Memory was wanting.
    NoMemory,
}

impl From<NoMemory> for Wrong {
    fn from(_: NoMemory) -> Wrong {
        Wrong::NoMemory
    }
}

impl From<AllocError> for Wrong {
    fn from(_: AllocError) -> Wrong {
        Wrong::NoMemory
    }
}
