//! A run of a plan over lines, from its openings to its report.
//!
//! `specs/Launched.antt` says what it does to the world.
#![tactic(auto)]

pub mod finish;
pub mod launch;
