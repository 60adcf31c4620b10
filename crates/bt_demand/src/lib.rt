//! What a message still asks for, as a tree of records, drops, rejects and holds.
//!
//! A demand is walked in place: a caller asks what is next, does it, and writes down what came of it, until the
//! demand is met or lost. Contracts speak of plain trees, which have no boxes and no capacities.
#![tactic(auto)]

pub mod demand;
pub mod derive;
pub mod holding;
pub mod laws;
pub mod outcome;
pub mod routes;
pub mod search;
pub mod steps;
pub mod todo;
