//! Queries evaluated.
//!
//! What a query gives is `value` of `bt_meaning`, in the context that contracts see. The functions
//! that evaluate parts of queries are methods of [`evaluator::Evaluator`], which has the function that
//! evaluates whole ones as a parameter, so that each is proved by itself.
#![tactic(auto)]

pub mod branches;
pub mod calls;
pub mod evaluator;
pub mod lambdas;
pub mod maps;
pub mod operands;
pub mod sorting;

pub use evaluator::{eval, eval_in};
