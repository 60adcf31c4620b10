//! The command `lint`: what is wrong with a configuration, a line each.
#![tactic(auto)]

pub mod command;
pub mod halt;
mod printing;
mod report;

pub use command::lint_command;
