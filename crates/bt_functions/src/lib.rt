//! The functions of the mapping language, on what their arguments give.
#![tactic(auto)]

pub mod functions;
pub mod moments;
pub mod parts;
pub mod places;
pub mod ranges;

pub use functions::function;
