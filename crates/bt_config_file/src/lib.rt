//! The configuration in a file: read and linted, and what is said where there is none.
#![tactic(auto)]

pub mod halt;
pub mod linted;
mod reading;
mod said;

pub use halt::{ConfigHalt, ConfigRefusal};
pub use linted::Linted;
pub use reading::{out_of_memory, read_linted};
pub use said::say_lints;
