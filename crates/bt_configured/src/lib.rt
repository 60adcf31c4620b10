//! A run of a configuration that names its parts: compiled, opened, carried, kept and reported.
//!
//! `specs/Configured.antt` says what it does to the world, and `specs/Lines.antt` which inputs run.
#![tactic(auto)]

pub mod configured;
pub mod halted;
pub mod lines;
mod running;
