//! What values hold, by kinds; the texts of failures; and the operators of the mapping language.
#![tactic(auto)]

pub mod kinds;
pub mod limits;
pub mod moving;
pub mod operators;
pub mod targets;

pub use kinds::{Kind, failure, kind_of, wrong};
pub use limits::{int_of, limited};
pub use operators::{negate, operate};
pub use targets::Chunk;
