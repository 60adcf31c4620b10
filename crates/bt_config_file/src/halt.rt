//! Why a file has no configuration.

/// What is wrong with a file as a configuration.
#[derive(Clone, Copy, Debug, PartialEq, Eq)]
pub enum ConfigRefusal {
    /// It is longer than a configuration may be.
    TooLong,
    /// It is no JSON text.
    NotJson,
    /// A number in it is no whole number of 64 bits.
    OutOfProfile,
}

/// What kept a configuration from being read.
#[derive(Clone, Copy, Debug, PartialEq, Eq)]
pub enum ConfigHalt {
    /// The file couldn't be read.
    Unread,
    /// The file is no configuration.
    Refused(ConfigRefusal),
    /// Memory was wanting.
    NoMemory,
}
