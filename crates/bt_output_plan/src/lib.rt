//! The output of a configuration, made ready and numbered.
//!
//! What an output is to be made as stands in `specs/Reading.antt`, with one row for each kind.
#![tactic(auto)]

mod batching;
mod fields;
pub mod kinds;
pub mod numbers;
mod outputs;
pub mod plan;
mod sinks;

pub use plan::{Ends, Names, OutputPlan, make_output};
