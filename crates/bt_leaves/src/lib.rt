//! The leaves of a demand under its steps: what is said of each leaf, which leaf is next, and what a step keeps.
//!
//! Laws alone, in `proofs`, for whoever keeps demands beside the records of their leaves.
#![tactic(auto)]
