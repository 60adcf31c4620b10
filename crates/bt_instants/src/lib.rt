//! The methods of the mapping language on instants, in UTC.
#![tactic(auto)]

pub mod times;
