//! How far the command `blobl` came, and what becomes of a line.
use bt_lints::MapLints;
use bt_ports::blob::Blob;
use bt_ports::text::Text;

/// Why no more lines are mapped.
#[derive(Clone, Copy, Debug, PartialEq, Eq)]
pub enum PassStop {
    /// The input was read to its end.
    Ended,
    /// The source failed.
    ReadFault,
    /// The line of this number is longer than lines may be.
    LongLine(u64),
    /// The input's bound was met.
    Bound,
    /// A result couldn't be printed whole.
    PrintFailed,
    /// Memory was wanting.
    NoMemory,
}

/// How lines are read and results printed.
#[derive(Clone, Copy, Debug, PartialEq, Eq)]
pub struct Flags {
    /// Whether a line need be no JSON text of a value.
    pub raw: bool,
    /// Whether a result that is a list or an object as JSON is laid out over several lines.
    pub pretty: bool,
}

/// The lines that were mapped: why there are no more, and whether the mapping of one failed.
#[derive(Clone, Copy, Debug, PartialEq, Eq)]
pub struct Pass {
    /// Why there are no more.
    pub stop: PassStop,
    /// Whether the mapping of a line failed.
    pub failed: bool,
}

/// What is wrong with a mapping's text.
#[derive(Clone, Copy, Debug, PartialEq, Eq)]
pub enum MappingFault {
    /// A character begins no token.
    Character,
    /// A text isn't closed, has a raw line feed, a bad escape or half of a pair of surrogates.
    Text,
    /// A number is too large, or a letter or a fraction follows it at once.
    Number,
    /// The tokens have no reading.
    Syntax,
    /// A bracket is the 65th open one.
    TooDeep,
}

/// What kept the command from mapping lines.
#[derive(Drop)]
pub enum Halt {
    /// The text is no mapping.
    Faulty {
        /// Why.
        fault: MappingFault,
        /// The place of the fault, in bytes from 0.
        at: usize,
    },
    /// The mapping has these lints.
    Lints(MapLints),
    /// A literal pattern of the mapping isn't read as one.
    Pattern {
        /// The place of the literal, in bytes from 0.
        at: usize,
    },
    /// The source couldn't be opened.
    NoSource,
    /// Memory was wanting before a line was read.
    NoMemory,
}

/// What becomes of a line.
#[derive(Drop)]
pub enum LineResult {
    /// These bytes are printed, a line break among them.
    Prints(Blob),
    /// Nothing is printed.
    Drops,
    /// The mapping failed, with this text.
    Fails(Text),
}
