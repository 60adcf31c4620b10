//! The methods of the mapping language on objects and paths.
#![tactic(auto)]

pub mod objects;
