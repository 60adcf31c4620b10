//! What is true of a desk between any two of its moves: each taken transaction is in one state, its trees are those of the
//! plan, each leaf has the records that its state says, and each item has the answer that its parts say, once.
//!
//! `specs` has this as one record of facts, `Sound`, over what a floor shows and the transactions that are closed, and
//! `proofs` that each move keeps it.
#![tactic(auto)]

pub mod counts;
