//! Why tokens are no mapping.

use thiserror::Error;

/// Why a list of tokens is refused. Places are bytes of the text, from 0.
#[derive(Clone, Copy, Debug, PartialEq, Eq, Error)]
pub enum SyntaxFault {
    /// The tokens have no reading.
    #[error("syntax at byte {at}")]
    Syntax {
        /// The place of the first token that ends no prefix of a readable list, or the text's length
        /// where the tokens only stop too soon.
        at: usize,
    },
    /// A bracket is the 65th open one.
    #[error("too deep at byte {at}")]
    TooDeep {
        /// Its place.
        at: usize,
    },
    /// Memory ran out.
    #[error("out of memory")]
    NoMemory,
}
