//! The methods of the mapping language on numbers, lists, and parts of texts and lists.
#![tactic(auto)]

pub mod distinct;
pub mod lists;
pub mod numbers;
pub mod slices;
pub mod sorts;
