//! What is said at the end of a run, and its status.
#![tactic(auto)]

mod lines;
pub mod report;
