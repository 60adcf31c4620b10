//! What lints and patterns look at in a query: its calls, its variables and where it names `root`.
#![tactic(auto)]

mod calls;
pub mod finding;
mod queries;
mod walker;
mod walking;

pub use finding::{Finding, Findings};
pub use walking::find_all;
