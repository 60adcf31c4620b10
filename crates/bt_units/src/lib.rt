//! Unit tests of configurations.
//!
//! `run_tests` runs the processors that each test names on its input batch, and compares what comes with what the test expects.
//! `specs/Ends.antt` says how the tests of a configuration end, and `specs/Text.antt` what is printed of them.
#![tactic(auto)]

mod conditions;
pub mod end;
mod expected;
mod fields;
mod input;
mod running;
mod text;

pub use bt_expectations::{Condition, Failure, Failures};
pub use end::{TestEnd, TestEnds, UnitsFault};
pub use running::{run_linted, run_tests};
pub use text::{Lines, has_failed, test_text};
