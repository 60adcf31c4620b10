//! What is made ready to run may go to another thread, and be looked at from several: laws alone.
//!
//! The kit finds by itself whether most types are `Send` and `Sync`. A pattern and a mapping are too large for that, so it is
//! shown here part by part, and crates above cite it for what they make of them.
#![tactic(auto)]

use bt_ready::Ready;

fn crosses<T: Send + Sync>(_value: &T) {}

/// A mapping with what running it takes is `Send` and `Sync`.
pub fn ready_crosses(ready: &Ready) {
    crosses(ready)
}
