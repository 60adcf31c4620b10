//! What a run reports: how it ended, and the counts of what was taken, answered and released.

/// How a run ended: the answer other than a batch that its intake gave.
#[derive(Clone, Copy, Debug, PartialEq, Eq)]
pub enum Ending {
    /// The input was read to its end.
    Ended,
    /// A read failed.
    ReadFault,
    /// The line of this number is longer than its limit.
    LongLine(u64),
    /// The bound of the bytes that may be taken was reached.
    Bound,
    /// The intake found no memory.
    NoMemory,
}

/// The counts of a run, each from 0, and how it ended.
///
/// `taken` counts transactions and `acked`, `refused` and `refused_memory` count items. `count` to `end` count, by
/// their reason, the releases of messages that were held back. A desk holds nothing back yet, so these are 0.
#[derive(Clone, Copy, Debug)]
pub struct Report {
    pub taken: u64,
    pub acked: u64,
    /// All items that were answered otherwise than by an acknowledgement.
    pub refused: u64,
    /// Those among the refused that were refused for want of memory. There are none yet.
    pub refused_memory: u64,
    /// The answers that failed. An item whose answer failed counts as acknowledged or refused all the same.
    pub answer_faults: u64,
    pub count: u64,
    pub bytes: u64,
    pub check: u64,
    pub period: u64,
    pub stall: u64,
    pub room: u64,
    pub end: u64,
    /// None while the intake gave nothing but batches.
    pub ending: Option<Ending>,
}

/// A transaction that was admitted and isn't answered yet: its number, and how many items it has.
#[derive(Clone, Copy, Debug)]
pub struct Out {
    pub number: u64,
    pub items: u64,
}

impl Report {
    ghost use Rattle.std.specs.Prelude.{◌≡◌, [], None};
    ghost use Rattle.bt_desk.specs.Stands.{report_of};

    /// The report of a run of which nothing was taken.
    pub(crate) fn new() -> Report
        ensures { result ≡ report_of 0 [] None }
    {
        Report {
            taken: 0,
            acked: 0,
            refused: 0,
            refused_memory: 0,
            answer_faults: 0,
            count: 0,
            bytes: 0,
            check: 0,
            period: 0,
            stall: 0,
            room: 0,
            end: 0,
            ending: None,
        }
    }
}
