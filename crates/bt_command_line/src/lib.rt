//! The words of the command line, read with `clap`.
//!
//! `read_command` gives the command that they are, or says that they are none. The forms stand in
//! `specs/Forms.antt`, and what a command's parts are in `specs/Commands.antt`.
#![tactic(auto)]

pub mod commands;
mod forms;
mod numbers;
mod parts;
mod reading;

pub use commands::{Command, Word, WordsFault};
pub use reading::read_command;
