//! Mappings run on messages, checks, and interpolated texts.
#![tactic(auto)]

mod asking;
pub mod interpolation;
pub mod run;
pub mod statements;

pub use bt_contexts::content::{document, this_failure};
pub use bt_meaning::{Mapped, Spot};
pub use interpolation::{Bit, Pieces, interpolate};
pub use run::{asks, check, check_seen, checked, run_mapping, run_on_document};
