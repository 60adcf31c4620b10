//! What all commands share: how they end, what they take at most, and what they say and ask of the world.
#![tactic(auto)]

pub mod crossing;
pub mod input;
pub mod limits;
pub mod lines;
pub mod status;
