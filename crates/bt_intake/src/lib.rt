//! The lines of some sources in batches, as the intake of a run.
//!
//! What the lines and the batches are is defined on the sources' finished bytes. The code reads pieces of any size, and
//! gives the same batches however the reads are cut.
#![tactic(auto)]

mod batches;
pub mod crossing;
pub mod intake;
mod line;
pub mod policy;
mod reader;
mod reading;
