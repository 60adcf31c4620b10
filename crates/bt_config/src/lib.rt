//! Configurations: read from JSON text, linted, and moved to version 2.
//!
//! What the lints of a configuration are stands in `specs/Violations.antt`.
#![tactic(auto)]

mod lints;
mod moved;
pub mod reading;

pub use bt_schema::{Lint, LintKind, Lints, lint_line};
pub use lints::lint_config;
pub use moved::migrate;
pub use reading::{Config, ConfigFault, read_config};
