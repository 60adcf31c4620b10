//! Processors: what becomes of a batch of messages.
//!
//! The definitions in `specs/` say, processor by processor, what each makes of a batch, and `process` is equal to them.
#![tactic(auto)]

mod steps;
pub mod tree;

pub use bt_batches::{Batch, Batches, Piece};
pub use steps::process;
pub use tree::{Format, Group, Processor, Procs};
