//! What the language of mappings says is wrong with the texts of a configuration: mappings, checks and
//! interpolated texts.
#![tactic(auto)]

mod interpolated;
mod judged;
pub mod verdict;

pub use judged::verdict_of;
pub use verdict::Verdict;
