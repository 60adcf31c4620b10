//! Processors that give one message or none for each, on messages in their places.
//!
//! A batch's messages stand in places. Each such processor takes messages out of their places or puts
//! others into them, so that each is followed by its place among those that went in. The definitions in
//! `specs/` say, processor by processor, what it makes of them, and `step` is equal to them.
#![tactic(auto)]

mod branch;
mod mapping;
pub mod messages;
pub mod steps;
mod switch;
pub mod tree;

pub use steps::{in_turn, step};
pub use tree::{Branch, Case, MessageProcessor};
