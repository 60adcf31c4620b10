//! What of a test fails.

use crate::condition::Condition;
use sqlite_items::Items;

/// What of a test fails. Batches and messages are numbered from 0.
#[derive(Clone, Copy, Debug, PartialEq, Eq)]
pub enum Failure {
    /// As many batches were expected, and so many came.
    Batches {
        expected: u32,
        got: u32,
    },
    /// Of a batch as many messages were expected, and so many came.
    Messages {
        batch: u32,
        expected: u32,
        got: u32,
    },
    /// A condition on a message doesn't hold.
    Condition {
        batch: u32,
        message: u32,
        condition: Condition,
    },
}

/// What of a test fails, in the order of the messages.
pub type Failures = Items<Failure>;
