//! Messages before and after a mapping.

use bt_ports::text::Text;
use bt_value::Msg;

/// Where and when a message is mapped.
#[derive(Clone, Copy, Debug, PartialEq, Eq)]
pub struct Spot {
    /// The message's place in its batch, from 0.
    pub index: u32,
    /// How many messages the batch has.
    pub size: u32,
    /// The moment, in milliseconds since 1970 began in UTC.
    pub moment: u64,
}

/// What a mapping makes of a message.
#[derive(Drop)]
pub enum Mapped {
    /// A message, which may be the same again.
    Changed(Msg),
    /// No message.
    Dropped,
    /// The message as it was, flagged with a text.
    Flagged(Text),
}
