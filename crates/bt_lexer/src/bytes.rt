//! Classes of bytes, and runs of them.

ghost use Rattle.std.specs.Prelude.{◌≡◌, ◌≤◌, length, drop};
ghost use Rattle.std.specs.List.{prefix_len};
ghost use Rattle.bt_lexer.specs.Bytes as classes;

/// What stands from a place on.
pub fn from_place(s: &[u8], at: usize) -> &[u8]
    requires { at ≤ length s.now }
    ensures { result.now ≡ drop at s.now }
{
    &s[at..]
}

pub fn is_digit(c: u8) -> bool
    ensures { result ≡ classes.is_digit c }
{
    c.is_ascii_digit()
}

/// A letter or `_`.
pub fn is_letter(c: u8) -> bool
    ensures { result ≡ classes.is_letter c }
{
    matches!(c, b'A'..=b'Z' | b'a'..=b'z' | b'_')
}

pub fn is_name_byte(c: u8) -> bool
    ensures { result ≡ classes.is_name_byte c }
{
    is_letter(c) || is_digit(c)
}

pub fn is_blank(c: u8) -> bool
    ensures { result ≡ classes.is_blank c }
{
    matches!(c, b' ' | b'\t' | b'\r')
}

pub fn is_in_line(c: u8) -> bool
    ensures { result ≡ classes.is_in_line c }
{
    c != b'\n'
}

/// How many bytes at the front may stand in a name.
pub fn name_len(s: &[u8]) -> usize
    ensures { result ≡ prefix_len classes.is_name_byte s.now }
{
    s.iter().take_while(|c| is_name_byte(**c)).count()
}

/// How many digits stand at the front.
pub fn digits_len(s: &[u8]) -> usize
    ensures { result ≡ prefix_len classes.is_digit s.now }
{
    s.iter().take_while(|c| is_digit(**c)).count()
}

/// How many bytes stand before the next line feed, or the end.
pub fn line_len(s: &[u8]) -> usize
    ensures { result ≡ prefix_len classes.is_in_line s.now }
{
    s.iter().take_while(|c| is_in_line(**c)).count()
}
