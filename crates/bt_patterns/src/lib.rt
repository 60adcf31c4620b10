//! Patterns, each built once from its text.
#![tactic(auto)]

pub mod pattern;

pub use pattern::{Pattern, PatternRefusal, Patterns, found};
