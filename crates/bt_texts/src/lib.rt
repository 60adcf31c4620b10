//! The methods of the mapping language on texts: conversions, pieces and schemes.
#![tactic(auto)]

pub mod conversions;
pub mod encodings;
pub mod texts;
