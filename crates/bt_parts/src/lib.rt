//! The parts of a transaction: what the processors make of its items, and what the output asks of each message.
//!
//! The definitions in `specs/` say what they are, and the laws that they fit the transaction and the plan.
#![tactic(auto)]

pub mod laws;
