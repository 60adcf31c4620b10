//! A slot of the table.
use crate::open::Open;

/// A place for one transaction.
#[derive(Drop)]
pub enum Slot {
    /// No transaction has it.
    Free,
    /// Its transaction is out: its routes weren't given yet.
    Out {
        number: u64,
        moment: u64,
        items: u64,
    },
    /// Its transaction is open.
    Given(Open),
}
