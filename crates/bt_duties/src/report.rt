//! What a run reports.
use bt_sound::counts::{Counts, Ending};

/// How many transactions were taken, the answers by verdict and the releases by reason, and how the intake ended.
#[derive(Clone, Copy, Debug)]
pub struct Report {
    pub taken: u64,
    pub counts: Counts,
    pub ending: Option<Ending>,
}
