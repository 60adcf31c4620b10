//! A plan may go to another thread, and be looked at from several: laws alone.
//!
//! The kit finds by itself whether most types are `Send` and `Sync`. A plan is too large for that, so it is shown here part by
//! part.
#![tactic(auto)]

use bt_routing::Plan;

fn crosses<T: Send + Sync>(_value: &T) {}

/// A plan is `Send` and `Sync`, whatever its processors and its output are.
pub fn plan_crosses(plan: &Plan) {
    crosses(plan)
}
