//! What a unit test expects of batches, and what of it fails.
//!
//! A test's conditions are made ready beforehand: here stands what each of them means, and which of them fail on the batches that
//! came. The definitions stand in `specs/`, one case a condition.
#![tactic(auto)]

pub mod comparing;
pub mod condition;
pub mod failure;
mod holding;
mod within;

pub use comparing::failures;
pub use condition::{
    Condition, Expectation, Expectations, ExpectedBatch, ExpectedBatches, name_of,
};
pub use failure::{Failure, Failures};
pub use holding::holds;
pub use within::is_within;
