//! From a transaction to the demands of its parts.
//!
//! The processors of a plan make messages of the transaction's items, and its output says what each of them asks for. The
//! definitions in `specs/` say what the parts are, and `derive` gives them.
#![tactic(auto)]

mod checks;
mod demands;
mod derive;
mod filling;
mod parts;
pub mod plan;
mod route;
mod supply;

pub use plan::{Ends, Names, Plan};
