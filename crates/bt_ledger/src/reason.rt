//! Why a chain is released.

/// Why the entries of a chain leave it.
///
/// The ledger gives the first four, which depend on the chain alone, or on it and an admission's moment. The last three
/// are those of a flush, which releases all chains.
#[derive(Clone, Copy, Debug, PartialEq, Eq)]
pub enum Reason {
    /// It has as many entries as its policy's count.
    Count,
    /// The sizes of its entries reach its policy's number of bytes.
    Bytes,
    /// The hold of its last entry ends the batch.
    Check,
    /// Its oldest entry waited for its policy's period.
    Period,
    /// The window is full, and no transaction is out that could make room in it.
    Stall,
    /// A part that begins could need more entries than the pool has left.
    Room,
    /// The run ends.
    End,
}
