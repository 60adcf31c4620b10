//! From a configuration to a plan: the processors, the output and the input, each made ready once.
//!
//! `specs/Compiled.antt` says what the plan of a configuration is, and why there is none.
#![tactic(auto)]

pub mod fault;
mod numbers;
mod planning;

pub use bt_input_plan::{InputPlan, InputPlans, InputPolicy};
pub use bt_routing::{Ends, Names, Plan};
pub use fault::CompileFault;
pub use planning::compile;
