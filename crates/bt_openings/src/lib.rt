//! What a run opens before it begins: its sinks, its answers and its sources, each once and in this order.
#![tactic(auto)]

pub mod answers;
pub mod opening;
pub mod sinks;
pub mod sources;
pub mod stop;
