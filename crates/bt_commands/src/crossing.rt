//! The input of a command may go to another thread, and be looked at from several: a law alone.

use crate::input::LineInput;
use bt_ports::outside::Source;

fn crosses<T: Send + Sync>(_value: &T) {}

/// The input of a command that reads lines is `Send` and `Sync`.
pub fn input_crosses<S: Source>(input: &LineInput<S>) {
    crosses(input)
}
