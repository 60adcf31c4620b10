//! What is kept of a chain beside its entries, so that the test whether it is ripe takes constant time.

/// The sum of the sizes of a chain's entries, and whether the hold of its last entry ends the batch.
///
/// Of an empty chain the latter says nothing.
#[derive(Clone, Copy, Debug, PartialEq, Eq)]
pub struct Tally {
    pub bytes: u128,
    pub ends: bool,
}
