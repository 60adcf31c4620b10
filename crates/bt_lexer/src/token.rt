//! Tokens, their kinds, the faults of a text and places in it.

use bt_ports::sequence::Sequence;
use thiserror::Error;

/// What a token is: a name, a variable, a number, a text, a line feed that ends a statement, or a mark.
#[derive(Clone, Copy, Debug, PartialEq, Eq)]
pub enum Kind {
    /// A letter or `_`, then letters, digits and `_`.
    Name,
    /// `$` and a name at once.
    Var,
    /// A run of digits.
    Int,
    /// A text in quotation marks, of either form.
    Text,
    /// A line feed that isn't soft.
    Nl,
    /// `+`
    Plus,
    /// `-`
    Minus,
    /// `*`
    Star,
    /// `/`
    Slash,
    /// `%`
    Percent,
    /// `==`
    Equal,
    /// `!=`
    NotEqual,
    /// `<`
    Less,
    /// `<=`
    LessEqual,
    /// `>`
    Greater,
    /// `>=`
    GreaterEqual,
    /// `&&`
    And,
    /// `||`
    Or,
    /// `|`
    Pipe,
    /// `!`
    Bang,
    /// `=`
    Assign,
    /// `=>`
    FatArrow,
    /// `->`
    Arrow,
    /// `.`
    Dot,
    /// `,`
    Comma,
    /// `:`
    Colon,
    /// `(`
    LeftParen,
    /// `)`
    RightParen,
    /// `[`
    LeftBracket,
    /// `]`
    RightBracket,
    /// `{`
    LeftBrace,
    /// `}`
    RightBrace,
    /// `@`
    At,
}

/// A token: its kind, and its bytes, from `from` to before `to`.
#[derive(Clone, Copy, Debug, PartialEq, Eq)]
pub struct Token {
    /// What it is.
    pub kind: Kind,
    /// The place of its first byte.
    pub from: usize,
    /// The place after its last byte.
    pub to: usize,
}

/// Tokens, in order of the text.
pub type Tokens = Sequence<Token>;

/// Why a text has no tokens.
#[derive(Clone, Copy, Debug, PartialEq, Eq, Error)]
pub enum LexFault {
    /// A character that begins no token.
    #[error("character at byte {at}")]
    Char {
        /// Its place.
        at: usize,
    },
    /// A text that isn't closed, or that has a raw line feed, a bad escape or half of a pair of surrogates.
    #[error("text at byte {at}")]
    Text {
        /// The place of its first quotation mark.
        at: usize,
    },
    /// A run of digits that is too large, or that a letter or a fraction follows at once.
    #[error("number at byte {at}")]
    Number {
        /// The place of its first digit.
        at: usize,
    },
    /// Memory ran out.
    #[error("out of memory")]
    NoMemory,
}

/// A place in a text as a reader counts: lines from 1, and columns from 1, in bytes.
#[derive(Clone, Copy, Debug, PartialEq, Eq)]
pub struct Place {
    /// One more than the line feeds before the place.
    pub line: u64,
    /// One more than the bytes between the last of them, or the start, and the place.
    pub column: u64,
}
