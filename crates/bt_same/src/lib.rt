//! Whether two mappings are the same but for their places.
#![tactic(auto)]

mod leaves;
mod mappings;
mod queries;

pub use mappings::same;
