//! The methods of the mapping language with patterns.
#![tactic(auto)]

pub mod patterns;
