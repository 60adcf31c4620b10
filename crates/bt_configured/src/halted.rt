//! Why a configuration that names its parts wasn't run.

use bt_config::Lints;

/// Why a configuration that names its parts wasn't run. Lines of `err` say it.
#[derive(Drop)]
pub enum Halted {
    /// It has these lints, or the one of a pattern that is refused.
    Lints(Lints),
    /// Its input is of a kind that doesn't run yet.
    NotBuilt,
    /// An opening failed.
    Failed,
    /// Memory was wanting before anything was taken.
    NoMemory,
}
