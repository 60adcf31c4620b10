//! What a desk is made from, and what an admission answers.
use bt_ports::parts::{Sinks, Txn};

/// The objects of the outside over which a desk works.
#[derive(Drop)]
pub struct Parts<I, K, A, C> {
    pub intake: I,
    pub sinks: Sinks<K>,
    pub answerer: A,
    pub clock: C,
}

/// What an admission answers: a transaction to deliver, or how the run ended.
#[derive(Drop)]
pub enum Admit {
    Job(Txn),
    Ended,
    ReadFault,
    /// The input's bound, or a line past its limit.
    Bound,
    NoMemory,
}
