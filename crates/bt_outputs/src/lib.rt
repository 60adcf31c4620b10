//! The output of a configuration, made ready, and what it asks of a message.
//!
//! The definitions in `specs/` say, kind by kind, the demand that an output has of a message, and which numbers its
//! leaves and holds have.
#![tactic(auto)]

pub mod laws;
pub mod output;

pub use output::{Output, OutputCase, Outputs, Shift};
