//! Why texts are no mappings.

/// What is wrong with a text.
#[derive(Clone, Copy, Debug, PartialEq, Eq)]
pub enum FaultKind {
    /// A character begins no token.
    Character,
    /// A text that isn't closed, or with a line feed or a bad escape inside.
    Text,
    /// A number that is too large, or that a letter or a fraction follows.
    Number,
    /// No reading is left.
    Syntax,
    /// Too many brackets are open.
    TooDeep,
}

/// The fault of a text.
#[derive(Clone, Copy, Debug, PartialEq, Eq)]
pub struct TextFault {
    /// What.
    pub kind: FaultKind,
    /// Where: a byte of the text, from 0, or its end.
    pub at: usize,
}

/// Why a text isn't read.
#[derive(Clone, Copy, Debug, PartialEq, Eq)]
pub enum Unread {
    /// It has a fault.
    Fault(TextFault),
    /// Memory ran out.
    NoMemory,
}
