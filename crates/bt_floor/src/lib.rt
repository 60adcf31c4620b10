//! The floor of a desk: the ledger, the sinks and the answerer as one state, and how its parts are settled.
//!
//! A part is settled by putting its records, letting its holds wait and releasing a chain as soon as it is ripe. A release
//! goes on with each part whose entry left the chain, so it may lead to others. No settling takes memory, and each call
//! ends.
#![tactic(auto)]

pub mod delivering;
pub mod floor;
pub mod flushing;
pub mod making;
pub mod moves;
pub mod settling;
pub mod taking;
