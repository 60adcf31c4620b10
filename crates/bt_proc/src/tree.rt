//! Processors, made ready.

use bt_mappings::Pieces;
use bt_messages::MessageProcessor;
use bt_ready::Ready;
use sqlite_items::Items;

/// How messages are put into one, and one is taken apart.
#[derive(Clone, Copy, Debug, PartialEq, Eq)]
pub enum Format {
    /// Contents with a line feed between each two.
    Lines,
    /// Documents as the elements of a JSON array.
    JsonArray,
}

/// A group of a `group_by`.
#[derive(Drop)]
pub struct Group<P> {
    /// The check of which its messages give true.
    pub check: Ready,
    /// What its batch goes through.
    pub processors: Items<P>,
}

/// A processor.
#[derive(Drop)]
pub enum Processor {
    /// `mapping`, `bloblang`, `switch` or `branch`, on the messages of a batch.
    Message(MessageProcessor),
    /// `try`
    Try(Items<Processor>),
    /// `for_each`
    ForEach(Items<Processor>),
    /// `catch`
    Catch(Items<Processor>),
    /// `split`, with the size of a piece, which is 1 at least.
    Split(u32),
    /// `group_by`
    GroupBy(Items<Group<Processor>>),
    /// `group_by_value`
    GroupByValue(Pieces),
    /// `archive`
    Archive(Format),
    /// `unarchive`
    Unarchive(Format),
}

/// Processors in their order.
pub type Procs = Items<Processor>;
