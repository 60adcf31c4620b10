//! A run of a plan over what was opened for it.
//!
//! It makes a desk of one duty, carries the run to its end, and gives back what it was given and the report.
#![tactic(auto)]

pub mod run;
