//! The walk over a configuration: what is wrong with it by the table of fields, and which of its
//! texts the mapping language has to judge.
//!
//! `findings` gives both in the order of lints. What it means stands in `specs/Walk.antt`, over `Own`
//! (what is wrong with a value by itself), `Counts`, `Ends` and `Targets`.
#![tactic(auto)]

pub mod above;
mod context;
pub mod counts;
mod ends;
pub mod findings;
mod members;
mod own;
mod targets;
mod texts;
mod walk;

pub use findings::{Finding, Findings, Found};
pub use targets::{is_target, reach};
pub use walk::find_all;
