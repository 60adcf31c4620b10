//! Texts in quotation marks.

ghost use Rattle.std.specs.Prelude.{◌≡◌, ◌<◌, true, ◌&&◌, IfSome};
ghost use Rattle.bt_lexer.specs.Bytes.{begins, is_quote};
ghost use Rattle.bt_lexer.specs.Strings as strings;
ghost use Rattle.bt_lexer.specs.Strings.{begins_tripled, is_tripled, is_quoted, unit_at, escaped_unit_at, part_at, len_of, short_escape};
ghost use Rattle.bt_lexer.specs.Fronts.{FindsFront, FindsToken, FindsEscape, FindsUnicode, FindsPair};

use crate::bytes::from_place;
use crate::token::Kind;

fn is_hex(c: u8) -> bool
    ensures { result ≡ strings.is_hex c }
{
    c.is_ascii_hexdigit()
}

fn hex_value(c: u8) -> u32
    requires { strings.is_hex c ≡ true }
    ensures value { result ≡ strings.hex_value c }
    ensures small { result < 16 }
{
    if c.is_ascii_digit() {
        u32::from(c) - 48
    } else if c >= 97 {
        u32::from(c) - 87
    } else {
        u32::from(c) - 55
    }
}

fn are_hex(a: u8, b: u8, c: u8, d: u8) -> bool
    ensures { result ≡ (strings.is_hex a && strings.is_hex b && strings.is_hex c && strings.is_hex d) }
{
    is_hex(a) && is_hex(b) && is_hex(c) && is_hex(d)
}

/// The number that four hexadecimal digits at the front spell.
fn unit(s: &[u8]) -> Option<u32>
    ensures value { result ≡ unit_at s.now }
    ensures small { IfSome result (λ n. n < 65536) }
{
    match s {
        [a, b, c, d, ..] if are_hex(*a, *b, *c, *d) => {
            Some(4096 * hex_value(*a) + 256 * hex_value(*b) + 16 * hex_value(*c) + hex_value(*d))
        }
        _ => None,
    }
}

fn is_high(n: u32) -> bool
    ensures { result ≡ strings.is_high n }
{
    (0xd800..=0xdbff).contains(&n)
}

fn is_low(n: u32) -> bool
    ensures { result ≡ strings.is_low n }
{
    (0xdc00..=0xdfff).contains(&n)
}

/// The unit that `\u` and four digits at the front spell.
fn escaped_unit(s: &[u8]) -> Option<u32>
    ensures { result ≡ escaped_unit_at s.now }
{
    match s {
        [b'\\', b'u', rest @ ..] => unit(rest),
        _ => None,
    }
}

/// The byte that a backslash and this letter stand for.
fn short(e: u8) -> Option<u8>
    ensures { result ≡ short_escape e }
{
    match e {
        b'"' | b'\\' | b'/' => Some(e),
        b'b' => Some(8),
        b'f' => Some(12),
        b'n' => Some(10),
        b'r' => Some(13),
        b't' => Some(9),
        _ => None,
    }
}

/// The character of a pair of surrogates, if the second one follows the first.
fn pair(high: u32, next: Option<u32>) -> Option<(usize, char)>
    requires { strings.is_high high ≡ true }
    ensures { FindsPair high next result }
{
    match next {
        Some(low) if is_low(low) => {
            match char::from_u32(0x10000 + (high - 0xd800) * 1024 + (low - 0xdc00)) {
                Some(c) => Some((12, c)),
                None => None,
            }
        }
        _ => None,
    }
}

/// The escape that `\u` begins, from the first digit on: how many bytes spell it, and its character.
fn unicode(s: &[u8]) -> Option<(usize, char)>
    ensures { FindsUnicode s.now result }
{
    let Some(n) = unit(s) else {
        return None;
    };
    if is_high(n) {
        return pair(n, escaped_unit(from_place(s, 4)));
    }
    match char::from_u32(n) {
        Some(c) => Some((6, c)),
        None => None,
    }
}

/// The escape at the front: how many bytes spell it, and its character.
pub fn escape(s: &[u8]) -> Option<(usize, char)>
    ensures { FindsEscape s.now result }
{
    match s {
        [b'\\', b'u', rest @ ..] => unicode(rest),
        [b'\\', e, ..] => match short(*e) {
            Some(c) => Some((2, char::from(c))),
            None => None,
        },
        _ => None,
    }
}

/// How many bytes spell the part of a text that begins here, or 0 where none does.
fn part_len(s: &[u8]) -> usize
    ensures { result ≡ len_of (part_at s.now) }
{
    match s {
        [b'\\', ..] => match escape(s) {
            Some((len, _)) => len,
            None => 0,
        },
        [] | [b'"' | b'\n', ..] => 0,
        _ => 1,
    }
}

/// Whether three quotation marks stand at the front.
pub fn has_three_marks(s: &[u8]) -> bool
    ensures { result ≡ begins_tripled s.now }
{
    matches!(s, [b'"', b'"', b'"', ..])
}

/// The length of the text of the first form at the front, if there is one.
fn quoted_len(s: &[u8]) -> Option<usize>
    requires { begins is_quote s.now ≡ true }
    ensures { FindsFront is_quoted s.now result }
{
    let mut at = 1;
    while at < s.len() {
        if s[at] == b'"' {
            return Some(at + 1);
        }
        let len = part_len(from_place(s, at));
        if len == 0 {
            return None;
        }
        at += len;
    }
    None
}

/// The length of the text of the second form at the front, if there is one.
fn tripled_len(s: &[u8]) -> Option<usize>
    requires { begins_tripled s.now ≡ true }
    ensures { FindsFront is_tripled s.now result }
{
    for at in 3..s.len() {
        if has_three_marks(from_place(s, at)) {
            return Some(at + 3);
        }
    }
    None
}

/// The text that begins with the quotation mark at the front, if there is one.
pub fn text(s: &[u8]) -> Option<(Kind, usize)>
    requires { begins is_quote s.now ≡ true }
    ensures { FindsToken s.now result }
{
    if has_three_marks(s) {
        match tripled_len(s) {
            Some(len) => Some((Kind::Text, len)),
            None => None,
        }
    } else {
        match quoted_len(s) {
            Some(len) => Some((Kind::Text, len)),
            None => None,
        }
    }
}
