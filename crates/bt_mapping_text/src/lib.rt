//! Texts in the language of mappings, read as mappings or as queries alone, and their faults in words.
#![tactic(auto)]

pub mod fault;
mod printed;
mod reading;

pub use fault::{FaultKind, TextFault, Unread};
pub use printed::{print_at, print_fault};
pub use reading::{read_check, read_mapping};
