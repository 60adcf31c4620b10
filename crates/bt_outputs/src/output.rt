//! Outputs.

use bt_mappings::Pieces;
use bt_ready::Ready;
use sqlite_items::{Boxed, Items};

/// A case of a `switch`.
#[derive(Drop)]
pub struct OutputCase<O> {
    /// What of a message must give true; without it every message passes.
    pub check: Option<Ready>,
    /// Whether a message that passes goes on to the cases behind this one: `continue`.
    pub goes_on: bool,
    /// Where a message that passes goes.
    pub output: O,
}

/// An output.
///
/// Leaves are numbered from 0 in the order in which they stand, and so are holds, a hold before what is below it. Below a
/// `retry` the numbers are those of its first copy.
#[derive(Drop)]
pub enum Output {
    /// `stdout` or `file`: a record for the sink of that number.
    Leaf {
        leaf: u32,
        sink: u32,
    },
    /// `drop`
    Drop,
    /// `reject`, with the pieces of its text.
    Reject(Pieces),
    /// `reject_errored`
    RejectErrored(Boxed<Output>),
    /// `broker`, without its batching.
    Broker(Items<Output>),
    /// The batching of a `broker`, which stands round it. A message of which `check` gives true ends the batch.
    Hold {
        node: u32,
        check: Option<Ready>,
        child: Boxed<Output>,
    },
    /// `switch`, with its `strict_mode`.
    Switch {
        cases: Items<OutputCase<Output>>,
        strict: bool,
    },
    /// `fallback`
    Fallback(Items<Output>),
    /// `retry`: so many copies of the child, each of which has so many leaves and holds.
    Retry {
        copies: u32,
        leaves: u32,
        holds: u32,
        child: Boxed<Output>,
    },
    /// `drop_on`, with its `error`.
    DropOn {
        error: bool,
        child: Boxed<Output>,
    },
}

/// Outputs in their order.
pub type Outputs = Items<Output>;

/// How many leaves and holds of earlier copies stand before an output.
#[derive(Clone, Copy, Debug, PartialEq, Eq)]
pub struct Shift {
    pub leaves: u32,
    pub holds: u32,
}
