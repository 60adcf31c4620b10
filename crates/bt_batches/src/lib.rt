//! Batches of messages with their origins: messages changed in their places, cut apart, gathered by a text or a check,
//! put into one and taken apart.
#![tactic(auto)]

mod archive;
pub mod checks;
mod origins;
pub mod piece;
mod sizes;
mod steps;
mod unarchive;
mod values;

pub use archive::{archive_json, archive_lines};
pub use piece::{Batch, Batches, Piece};
pub use sizes::split;
pub use steps::stepped;
pub use unarchive::{unarchive_json, unarchive_lines};
pub use values::by_value;
