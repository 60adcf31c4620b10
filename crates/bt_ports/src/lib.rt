//! The outside of the program: the types that pass through it, the traits that stand for it, and
//! implementations of them in memory.
//!
//! A failure comes only where the count of faults of the object rose in that call, and what an
//! object tells grows by one call's record.
#![tactic(auto)]

pub mod blob;
pub mod memory;
pub mod origins;
pub mod outside;
pub mod parts;
pub mod sequence;
pub mod text;
pub mod world;

use std::alloc::{AllocError, AllocFailed};

/// Memory was wanted and there was none.
///
/// It is the one answer that no contract ties to a cause. `?` makes it of the allocator's errors, and of a `push` whose
/// member is dropped.
#[derive(Clone, Copy, Debug, PartialEq, Eq)]
pub struct NoMemory;

impl From<AllocError> for NoMemory {
    fn from(_: AllocError) -> NoMemory {
        NoMemory
    }
}

impl<T: Drop> From<AllocFailed<T>> for NoMemory {
    fn from(_: AllocFailed<T>) -> NoMemory {
        NoMemory
    }
}

impl<T: Drop> From<(NoMemory, T)> for NoMemory {
    fn from(_: (NoMemory, T)) -> NoMemory {
        NoMemory
    }
}
