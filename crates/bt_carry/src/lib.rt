//! A run of a desk with one duty, from its first transaction to its end, and the account of it.
//!
//! The account speaks of what the sinks and the answerer tell, and of the parts that the plan derives: each transaction that
//! was taken is closed, each of its items has one answer, by the records of its parts, and the records are those of the
//! asked leaves.
#![tactic(auto)]

pub mod carry;
