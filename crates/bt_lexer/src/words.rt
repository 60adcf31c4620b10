//! The token or the gap at the front of a text.

ghost use Rattle.std.specs.Prelude.{◌≡◌, ◌<◌, ◌==◌, length, slice_index, false, true, nat_lt};
ghost use Rattle.bt_lexer.specs.Bytes as classes;
ghost use Rattle.bt_lexer.specs.Bytes.{begins, quote};
ghost use Rattle.bt_lexer.specs.Tokens as tokens;
ghost use Rattle.bt_lexer.specs.Tokens.{int_value};
ghost use Rattle.bt_lexer.specs.Fronts.{FindsToken, FindsGap, pair_at};

use crate::bytes::{digits_len, from_place, is_blank, is_digit, is_letter, line_len, name_len};
use crate::marks::{mark_of_one, mark_of_two};
use crate::strings::text;
use crate::token::Kind;

/// The variable that begins with the `$` at the front, if there is one.
fn var(s: &[u8]) -> Option<(Kind, usize)>
    requires { begins (λ c. c == 36) s.now ≡ true }
    ensures { FindsToken s.now result }
{
    match s {
        [_, c, ..] if is_letter(*c) => Some((Kind::Var, 1 + name_len(from_place(s, 1)))),
        _ => None,
    }
}

fn mark_of_pair(s: &[u8]) -> Option<Kind>
    ensures { result ≡ pair_at s.now }
{
    match s {
        [a, b, ..] => mark_of_two(*a, *b),
        _ => None,
    }
}

/// The mark at the front, the longest that fits, if there is one.
fn mark(s: &[u8]) -> Option<(Kind, usize)>
    requires some { 0 < length s.now }
    requires no_letter { classes.is_letter (slice_index s.now 0) ≡ false }
    requires no_digit { classes.is_digit (slice_index s.now 0) ≡ false }
    requires no_dollar { (slice_index s.now 0 == 36) ≡ false }
    requires no_quote { (slice_index s.now 0 == quote) ≡ false }
    ensures { FindsToken s.now result }
{
    if let Some(kind) = mark_of_pair(s) {
        return Some((kind, 2));
    }
    match mark_of_one(s[0]) {
        Some(kind) => Some((kind, 1)),
        None => None,
    }
}

/// The token at the front and its length, if one begins there.
pub fn word(s: &[u8]) -> Option<(Kind, usize)>
    ensures { FindsToken s.now result }
{
    if s.is_empty() {
        return None;
    }
    let first = s[0];
    if is_letter(first) {
        Some((Kind::Name, name_len(s)))
    } else if is_digit(first) {
        Some((Kind::Int, digits_len(s)))
    } else if first == b'$' {
        var(s)
    } else if first == b'"' {
        text(s)
    } else {
        mark(s)
    }
}

/// How many bytes the blank or the comment at the front has, or 0 where neither begins there.
pub fn gap_len(s: &[u8]) -> usize
    ensures { FindsGap s.now result }
{
    if s.is_empty() {
        return 0;
    }
    if is_blank(s[0]) {
        return 1;
    }
    if s[0] == b'#' {
        return 1 + line_len(from_place(s, 1));
    }
    0
}

/// Whether a run of digits is past the largest number.
fn is_too_large(digits: &[u8]) -> bool
    ensures { result ≡ nat_lt 9223372036854775807 (int_value digits.now) }
{
    let mut value: u64 = 0;
    for c in digits {
        let digit = u64::from(c.saturating_sub(b'0'));
        if value > (9_223_372_036_854_775_807 - digit) / 10 {
            return true;
        }
        value = value * 10 + digit;
    }
    false
}

fn begins_with_letter(s: &[u8]) -> bool
    ensures { result ≡ begins classes.is_letter s.now }
{
    match s {
        [c, ..] => is_letter(*c),
        [] => false,
    }
}

fn begins_fraction(s: &[u8]) -> bool
    ensures { result ≡ tokens.begins_fraction s.now }
{
    match s {
        [b'.', c, ..] => is_digit(*c),
        _ => false,
    }
}

/// Whether the bytes are a run of digits that is a fault before the rest.
pub fn is_bad(kind: Kind, after_dot: bool, bytes: &[u8], rest: &[u8]) -> bool
    ensures { result ≡ tokens.is_bad kind after_dot bytes.now rest.now }
{
    match kind {
        Kind::Int => is_too_large(bytes)
            || begins_with_letter(rest)
            || !after_dot && begins_fraction(rest),
        _ => false,
    }
}
