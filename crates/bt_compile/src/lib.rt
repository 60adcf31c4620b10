//! Processors made ready from a configuration.
//!
//! What a list of processors is to be made as stands in `specs/Reading.antt`, with one row for each kind;
//! `compile_procs` is proved to give it, with each mapping, check and interpolated text made ready once.
#![tactic(auto)]

mod compile;
pub mod fault;
mod fields;
mod kinds;
mod laws;
mod processors;
mod singles;
mod texts;

pub use compile::compile_procs;
pub use fault::ProcsFault;
pub use laws::kinds_are_known;
