//! Mappings with what running them takes.
#![tactic(auto)]

pub mod ready;

pub use ready::Ready;
