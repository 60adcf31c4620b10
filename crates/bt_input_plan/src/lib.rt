//! The input of a configuration, with its checks made ready.
//!
//! What an input is to be made as stands in `specs/Reading.antt`, with one row for each kind.
#![tactic(auto)]

mod fields;
mod inputs;
pub mod kinds;
mod make;
pub mod plan;
pub mod scanners;

pub use make::make_input;
pub use plan::{InputPlan, InputPlans, InputPolicy, Names};
