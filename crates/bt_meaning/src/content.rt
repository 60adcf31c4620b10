//! Contents as documents.

/// Why a content is no document.
#[derive(Clone, Copy, Debug, PartialEq, Eq)]
pub enum ContentFault {
    /// It is no JSON text.
    NotJson,
    /// It has a number that is no whole number of 64 bits.
    OutOfProfile,
}
