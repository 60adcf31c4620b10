//! The text of a token, and the value of a number.

ghost use Rattle.std.specs.Prelude.{◌≡◌, ◌≤◌, slice_range};
ghost use Rattle.bt_lexer.specs.Tokens as tokens;
ghost use Rattle.bt_lexer.specs.Spans.{IsSpan};

use crate::token::Token;

/// The text of a token. It takes no memory.
pub fn piece<'a>(text: &'a str, token: &Token) -> &'a str
    requires { IsSpan text.now token.now }
    ensures { result.now ≡ slice_range text.now token.now.from token.now.to }
{
    &text[token.from..token.to]
}

/// The number that a run of digits spells.
pub fn int_value(digits: &str) -> u64
    requires { tokens.int_value digits.now ≤ 9223372036854775807 }
    ensures { result ≡ tokens.int_value digits.now }
{
    let mut value: u64 = 0;
    for c in digits.as_bytes() {
        value = value * 10 + u64::from(c.saturating_sub(b'0'));
    }
    value
}
