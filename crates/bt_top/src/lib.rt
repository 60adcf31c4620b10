//! All that the program does, by its words.
#![tactic(auto)]

pub mod command;
