//! The literal patterns of a mapping, each built once, and mappings that are ready to run.
#![tactic(auto)]

mod found;
pub mod patterns;
mod readying;

pub use patterns::{PatternFault, build_patterns};
pub use readying::ready;
