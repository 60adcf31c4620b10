//! An intake may go to another thread, and be looked at from several: a law alone.

use crate::intake::LineIntake;
use bt_ports::outside::Source;

fn crosses<T: Send + Sync>(_value: &T) {}

/// An intake of lines is `Send` and `Sync`, whatever its policy checks.
pub fn intake_crosses<S: Source>(intake: &LineIntake<S>) {
    crosses(intake)
}
