//! Marks, and the line feed.

ghost use Rattle.std.specs.Prelude.{◌≡◌, List, [], ◌∷◌};
ghost use Rattle.bt_lexer.specs.Kinds.{mark_in, marks};

use crate::token::Kind;

/// The mark that one byte is.
pub fn mark_of_one(a: u8) -> Option<Kind>
    ensures { result ≡ mark_in marks (a ∷ []) }
{
    match a {
        b'\n' => Some(Kind::Nl),
        b'+' => Some(Kind::Plus),
        b'-' => Some(Kind::Minus),
        b'*' => Some(Kind::Star),
        b'/' => Some(Kind::Slash),
        b'%' => Some(Kind::Percent),
        b'<' => Some(Kind::Less),
        b'>' => Some(Kind::Greater),
        b'|' => Some(Kind::Pipe),
        b'!' => Some(Kind::Bang),
        b'=' => Some(Kind::Assign),
        b'.' => Some(Kind::Dot),
        b',' => Some(Kind::Comma),
        b':' => Some(Kind::Colon),
        b'(' => Some(Kind::LeftParen),
        b')' => Some(Kind::RightParen),
        b'[' => Some(Kind::LeftBracket),
        b']' => Some(Kind::RightBracket),
        b'{' => Some(Kind::LeftBrace),
        b'}' => Some(Kind::RightBrace),
        b'@' => Some(Kind::At),
        _ => None,
    }
}

/// The mark that two bytes are.
pub fn mark_of_two(a: u8, b: u8) -> Option<Kind>
    ensures { result ≡ mark_in marks (a ∷ b ∷ []) }
{
    match (a, b) {
        (b'=', b'=') => Some(Kind::Equal),
        (b'!', b'=') => Some(Kind::NotEqual),
        (b'<', b'=') => Some(Kind::LessEqual),
        (b'>', b'=') => Some(Kind::GreaterEqual),
        (b'&', b'&') => Some(Kind::And),
        (b'|', b'|') => Some(Kind::Or),
        (b'=', b'>') => Some(Kind::FatArrow),
        (b'-', b'>') => Some(Kind::Arrow),
        _ => None,
    }
}
