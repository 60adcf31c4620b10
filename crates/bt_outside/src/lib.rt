//! The real outside: files, the standard streams and the wall clock, behind the traits of what is outside.
//!
//! It counts what fails, and tells nothing of content: what a file or a stream holds is the system's word.
#![tactic(auto)]

pub mod answerer;
pub mod clock;
pub mod sink;
pub mod source;
pub mod stream;
pub mod world;

pub use world::RealWorld;
