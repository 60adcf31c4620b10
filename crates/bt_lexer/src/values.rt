//! What a text stands for.

ghost use Rattle.std.specs.Prelude.{◌≡◌, Some, IfOk, true, drop};
ghost use Rattle.std.specs.List.{prefix_len};
ghost use Rattle.bt_lexer.specs.declared.token.Kind.TheVariants as kinds;
ghost use Rattle.bt_lexer.specs.Strings as strings;
ghost use Rattle.bt_lexer.specs.Kinds.{kind_of};

use crate::bytes::from_place;
use crate::strings::{escape, has_three_marks};
use bt_ports::NoMemory;
use bt_ports::text::Text;
use std::alloc::Global;

fn is_plain(c: u8) -> bool
    ensures { result ≡ strings.is_plain c }
{
    !matches!(c, b'\\' | b'"' | b'\n')
}

/// How many bytes at the front stand for themselves.
fn plain_len(s: &[u8]) -> usize
    ensures { result ≡ prefix_len strings.is_plain s.now }
{
    s.iter().take_while(|c| is_plain(**c)).count()
}

/// What a text of the first form stands for.
fn quoted_value(alloc: Global, piece: &str) -> Result<Text, NoMemory>
    requires { strings.is_quoted piece.now ≡ true }
    ensures { IfOk result (λ value. value ≡ strings.parts_value (drop 1 piece.now) 0) }
{
    let bytes = piece.as_bytes();
    let mut value = Text::new(alloc);
    let mut at = 1;
    'parts: loop {
        let end = at + plain_len(from_place(bytes, at));
        value.push_str(&piece[at..end])?;
        let Some((len, c)) = escape(from_place(bytes, end)) else {
            return Ok(value);
        };
        value.push_str(c.encode_utf8(&mut [0; 4]))?;
        at = end + len;
    }
}

/// What a text token stands for: the bytes between three marks as they are, or the parts between
/// two marks with each escape's character in its place.
pub fn text_value(alloc: Global, piece: &str) -> Result<Text, NoMemory>
    requires { kind_of piece.now ≡ Some kinds.Text }
    ensures { IfOk result (λ value. value ≡ strings.text_value piece.now) }
{
    if has_three_marks(piece.as_bytes()) {
        Text::make(alloc, &piece[3..piece.len() - 3])
    } else {
        quoted_value(alloc, piece)
    }
}
