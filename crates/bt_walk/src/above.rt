//! What stands above a place.

/// What a walk has to know of what stands above a value.
#[derive(Clone, Copy)]
pub struct Above {
    /// The configuration is of version 2.
    pub newer: bool,
    /// There is a list of processors at `/pipeline/processors`.
    pub has_processors: bool,
    /// A `switch` or a `branch` of processors stands above.
    pub below_switch: bool,
    /// A `broker` whose batching is on stands above.
    pub below_hold: bool,
    /// A `batched` stands above.
    pub below_batched: bool,
    /// The value itself is batching below batching.
    pub batching_below: bool,
    /// The value itself changes the number of messages, where each has to give one or none.
    pub changes_number: bool,
    /// The value itself has too many sources, leaves or holds.
    pub too_many: bool,
    /// The value itself has two leaves of one sink with different closing bytes.
    pub two_codecs: bool,
}
