//! A desk for any number of duties: the floor, and which duty is out with which transaction.
//!
//! Between any two calls nothing can go on, no chain is ripe, and each transaction that is out is named by one duty.
#![tactic(auto)]

pub mod admit;
pub mod desk;
pub mod duty;
pub mod report;
