//! What a duty is out with.

/// The number of the transaction that a duty is out with, how many items that has, and its slot. A transaction's number
/// is never 0, and all three are 0 where the duty is idle.
#[derive(Clone, Copy, Debug, PartialEq, Eq)]
pub struct Duty {
    pub number: u64,
    pub items: u64,
    pub slot: u32,
}
