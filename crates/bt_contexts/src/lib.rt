//! Contexts in which queries are evaluated, what queries give, and what is made of it without
//! evaluating a further query.
#![tactic(auto)]

pub mod content;
pub mod context;
pub mod got;
pub mod operators;
pub mod state;

pub use context::{Ctx, Got, Names, Read, This};
