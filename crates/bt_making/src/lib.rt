//! Texts of a configuration in the language of mappings, made ready to run: mappings, checks and
//! interpolated texts.
//!
//! A text that isn't read, or has a pattern that is refused, has one lint in its place.
#![tactic(auto)]

mod interpolated;
mod making;
pub mod refusal;

pub use interpolated::make_pieces;
pub use making::{make_check, make_mapping};
pub use refusal::Refusal;
