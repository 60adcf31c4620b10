//! The desk: the intake, the sinks, the answerer and the clock of a run as one state.
//!
//! A transaction is one batch of the intake. The desk takes one at a time, puts each of its items to the sink as one
//! record, and answers the item by what became of that record. Between any two calls its lists are those that follow
//! from what was taken and from which puts and answers failed: each item of each delivered transaction has one record
//! and one answer, and nothing else is in any list.
#![tactic(auto)]

pub mod desk;
pub mod parts;
pub mod report;
mod settle;
