//! What the commands take at most.

/// The bytes that an input of lines may have.
pub const INPUT_BOUND: u64 = 281_474_976_710_656;

/// The bytes that a configuration may have.
pub const CONFIG_LIMIT: u64 = 16_777_216;
