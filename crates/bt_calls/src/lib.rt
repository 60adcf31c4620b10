//! The calls of the mapping language: what each function and each method takes.
//!
//! `specs/Table` is the one table of arguments, from which lints, what evaluates and the reference
//! page take it.
#![tactic(auto)]

pub mod fitting;
pub mod table;

pub use fitting::{fits, literal};
pub use table::{Signature, Slot, function_takes, method_takes};
