//! The command `blobl`: mapping lines of the standard input.
#![tactic(auto)]

pub mod command;
pub mod course;
mod faults;
mod lines;
mod outcome;
