//! The lints of a mapping.
#![tactic(auto)]

pub mod lint;
mod linter;
mod mapping;
mod names;
mod order;
pub mod reach;
pub mod told;

pub use lint::{MapLint, MapLintKind, MapLints, Use};
pub use mapping::lint_mapping;
pub use told::told_at;
