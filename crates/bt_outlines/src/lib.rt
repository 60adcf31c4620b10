//! What the parts of a configuration are to be made as, and the checks of them made ready.
#![tactic(auto)]

mod checks;

pub use checks::{check_at, optional_check_at};
