//! Processors that give one message or none for each, made ready.

use bt_ready::Ready;
use sqlite_items::Items;

/// A case of a `switch`.
#[derive(Drop)]
pub struct Case<P> {
    /// The check of which a message must give true; without one every message passes.
    pub check: Option<Ready>,
    /// What the messages go through.
    pub processors: Items<P>,
    /// Whether they go through the next case too.
    pub fallthrough: bool,
}

/// A `branch`.
#[derive(Drop)]
pub struct Branch<P> {
    /// What makes the copy of a message; without it the copy is the message again.
    pub request: Option<Ready>,
    /// What the copies go through.
    pub processors: Items<P>,
    /// What brings a copy back into its original; without it the original stays.
    pub result: Option<Ready>,
}

/// A processor that gives one message or none for each: all that may stand below a `switch` or a `branch`.
#[derive(Drop)]
pub enum MessageProcessor {
    /// `mapping`, `bloblang`
    Mapping(Ready),
    /// `try`
    Try(Items<MessageProcessor>),
    /// `for_each`
    ForEach(Items<MessageProcessor>),
    /// `catch`
    Catch(Items<MessageProcessor>),
    /// `switch`
    Switch(Items<Case<MessageProcessor>>),
    /// `branch`
    Branch(Branch<MessageProcessor>),
}
