//! The three steps of a demand as one, with what a step changes in the number of booked holds, and the laws of trees
//! under steps, which whoever keeps many trees at once needs.
//!
//! A record, a hold that begins to wait and a hold that is released each change one leaf or the holds of one number. What
//! is counted of a tree moves by what the laws in `proofs` say, and nothing else does.
#![tactic(auto)]

pub mod step;
