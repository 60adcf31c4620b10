//! What the moves of a desk do to its ledger, and what they leave as it was.
//!
//! A desk puts a record, lets a hold wait, takes the front of a chain, answers an item and closes a transaction. Relations
//! over the ledger before and after say what one such move, and any number of them, keeps: `specs` has these, and `proofs`
//! that each move keeps them and that they compose.
#![tactic(auto)]
