//! The command `run`: a run of one configuration with one worker.
#![tactic(auto)]

mod carry;
pub mod command;
mod configuration;
mod form;
pub mod halt;
mod lines;
mod openings;
mod report;
