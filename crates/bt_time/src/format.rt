//! Texts of seconds by a format.
ghost use Rattle.std.specs.Prelude.{◌≡◌, ◌≢◌, ◌↔◌, ℤ, ◌<◌, ◌≤◌, ◌^◌, ℕ, List, [], ◌∷◌, ◌++◌, length, take, drop, IsTrue, IsNone, IfSome, IfOk, OnOk, MatchOption, Some, None, Err, ok_or, true, false, string_bytes};
ghost use Rattle.bt_time.specs.Civil.{is_civil, seconds_of, civil_of, is_in_range};
ghost use Rattle.bt_time.specs.Instants.{format_of};
ghost use Rattle.std.specs.Prelude.{eqb};
ghost use Rattle.std.specs.Str.{IsUtf8};
ghost use Rattle.std.specs.List.{position_or_len, before_first, after_first};
ghost use Rattle.bt_time.specs.Format as spec;
ghost use Rattle.bt_time.specs.Format.{pieces, pieces_behind, is_format, is_format_behind, is_whole, count_of, part, width, digits, two_digits, four_digits, shown, shown_by, shown_piece, place, number, written, civil_in, seen};

use crate::TimeFault;
use crate::civil::{Civil, is_in_range};
use bt_ports::text::Text;
use std::alloc::{AllocError, Global};

/// A part of a date and time that a format can name.
#[derive(Clone, Copy, Debug, PartialEq, Eq)]
pub enum Directive {
    /// `%Y`, four digits.
    Year,
    /// `%m`, two digits.
    Month,
    /// `%d`, two digits.
    Day,
    /// `%H`, two digits.
    Hour,
    /// `%M`, two digits.
    Minute,
    /// `%S`, two digits.
    Second,
}

/// A piece of a format.
#[derive(Clone, Copy, Debug, PartialEq, Eq)]
pub enum Piece {
    /// A directive.
    Part(Directive),
    /// A byte that stands for itself.
    Byte(u8),
}

fn directive_of(letter: u8) -> Option<Directive>
    ensures { result ≡ spec.directive_of letter }
{
    match letter {
        b'Y' => Some(Directive::Year),
        b'm' => Some(Directive::Month),
        b'd' => Some(Directive::Day),
        b'H' => Some(Directive::Hour),
        b'M' => Some(Directive::Minute),
        b'S' => Some(Directive::Second),
        _ => None,
    }
}

/// The first piece of a format, and what stands behind it.
fn next_piece(format: &[u8]) -> Option<(Piece, &[u8])>
    ensures none { IsNone result → pieces format.now ≡ [] }
    ensures some { IfSome result (λ x. (pieces format.now ≡ x.0 ∷ pieces x.1.now) × (length x.1.now < length format.now)) }
{
    let (byte, rest) = format.split_first()?;
    if *byte != b'%' {
        return Some((Piece::Byte(*byte), rest));
    }
    let Some((letter, after)) = rest.split_first() else {
        return Some((Piece::Byte(b'%'), rest));
    };
    match directive_of(*letter) {
        Some(directive) => Some((Piece::Part(directive), after)),
        None if *letter == b'%' => Some((Piece::Byte(b'%'), after)),
        None => Some((Piece::Byte(b'%'), rest)),
    }
}

impl Directive {
    /// How many digits the part has.
    fn width(self) -> usize
        ensures { result ≡ width self }
    {
        match self {
            Directive::Year => 4,
            _ => 2,
        }
    }
}

impl Piece {
    /// How many bytes the piece shows.
    fn width(self) -> usize
        ensures { result ≡ spec.piece_width self }
    {
        match self {
            Piece::Part(directive) => directive.width(),
            Piece::Byte(_) => 1,
        }
    }

    /// Whether the piece is the directive.
    fn is_part(self, directive: Directive) -> bool
        ensures { result ≡ spec.is_part directive self }
    {
        match (directive, self) {
            (Directive::Year, Piece::Part(Directive::Year)) => true,
            (Directive::Month, Piece::Part(Directive::Month)) => true,
            (Directive::Day, Piece::Part(Directive::Day)) => true,
            (Directive::Hour, Piece::Part(Directive::Hour)) => true,
            (Directive::Minute, Piece::Part(Directive::Minute)) => true,
            (Directive::Second, Piece::Part(Directive::Second)) => true,
            _ => false,
        }
    }
}

impl Civil {
    /// The number of a part.
    fn part(&self, directive: Directive) -> u16
        ensures { result ≡ part self.now directive }
    {
        match directive {
            Directive::Year => self.year,
            Directive::Month => self.month,
            Directive::Day => self.day,
            Directive::Hour => self.hour,
            Directive::Minute => self.minute,
            Directive::Second => self.second,
        }
    }
}

fn digit(n: u16) -> u8
    ensures { result ≡ spec.digit n }
{
    b'0' + (n % 10) as u8
}

fn two_digits(n: u16) -> [u8; 2]
    ensures { result ≡ two_digits n }
{
    [digit(n / 10), digit(n)]
}

fn four_digits(n: u16) -> [u8; 4]
    ensures { result ≡ four_digits n }
{
    [digit(n / 1000), digit(n / 100), digit(n / 10), digit(n)]
}

/// The number of at most nine digits.
pub(crate) fn number(digits: &[u8]) -> u32
    requires { length digits.now ≤ 9 }
    ensures value { result ≡ number digits.now }
    ensures small { result < 10 ^ length digits.now }
{
    let mut n: u32 = 0;
    for byte in digits {
        n = 10 * n + (byte.saturating_sub(b'0') % 10) as u32;
    }
    n
}

/// The number of at most four digits.
#[tactic(auto, using(crate::proofs::FormatLemmas::short))]
fn short_number(digits: &[u8]) -> u16
    requires { length digits.now ≤ 4 }
    ensures { result ≡ number digits.now }
{
    number(digits) as u16
}

/// At most the first `n` bytes.
pub(crate) fn front(bytes: &[u8], n: usize) -> &[u8]
    ensures { result.now ≡ take n bytes.now }
{
    &bytes[..n.min(bytes.len())]
}

/// What stands behind the first `n` bytes.
pub(crate) fn behind(bytes: &[u8], n: usize) -> &[u8]
    ensures { result.now ≡ drop n bytes.now }
{
    &bytes[n.min(bytes.len())..]
}

/// What stands behind the piece's text, where the text begins with it.
fn strip<'a>(text: &'a [u8], piece: Piece, civil: &Civil) -> Option<&'a [u8]>
    ensures { MatchOption result ((u : List ℕ) → text.now ≢ shown_piece civil.now piece ++ u)
        (λ u. text.now ≡ shown_piece civil.now piece ++ u.now) }
{
    match piece {
        Piece::Byte(byte) => text.strip_prefix(&[byte]),
        Piece::Part(Directive::Year) => text.strip_prefix(&four_digits(civil.year)),
        Piece::Part(directive) => text.strip_prefix(&two_digits(civil.part(directive))),
    }
}

/// The number that stands in the text where the format has the directive first, or 0.
fn number_at(text: &[u8], format: &[u8], directive: Directive) -> u16
    ensures { result ≡ number (place directive (pieces format.now) text.now) }
{
    let mut rest = text;
    let mut format = format;
    while let Some((piece, after)) = next_piece(format) {
        if piece.is_part(directive) {
            return short_number(front(rest, directive.width()));
        }
        rest = behind(rest, piece.width());
        format = after;
    }
    0
}

/// Whether the text is what the format shows of the date and time.
fn shows(text: &[u8], format: &[u8], civil: &Civil) -> bool
    ensures { IsTrue result ↔ (shown_by civil.now (pieces format.now) ≡ text.now) }
{
    let mut rest = text;
    let mut format = format;
    while let Some((piece, after)) = next_piece(format) {
        let Some(left) = strip(rest, piece, civil) else {
            return false;
        };
        rest = left;
        format = after;
    }
    rest.is_empty()
}

/// The numbers that stand in the text at the format's directives.
#[tactic(auto, unfolding(crate::specs::Format::written))]
fn written(text: &[u8], format: &[u8]) -> Civil
    ensures { result ≡ written (pieces format.now) text.now }
{
    Civil {
        year: number_at(text, format, Directive::Year),
        month: number_at(text, format, Directive::Month),
        day: number_at(text, format, Directive::Day),
        hour: number_at(text, format, Directive::Hour),
        minute: number_at(text, format, Directive::Minute),
        second: number_at(text, format, Directive::Second),
    }
}

/// The date and time that the text shows by the format.
#[tactic(auto, using(crate::proofs::FormatLemmas::civil_found, crate::proofs::FormatLemmas::civil_missed))]
pub(crate) fn civil_in(text: &[u8], format: &[u8]) -> Option<Civil>
    ensures exact { result ≡ civil_in (pieces format.now) text.now }
    ensures exists { IfSome result (λ c. is_civil c ≡ true) }
{
    let civil = written(text, format);
    if civil.exists() && shows(text, format, &civil) {
        Some(civil)
    } else {
        None
    }
}

/// What follows the ASCII letter, where the text begins with it.
fn strip_letter(text: &str, letter: char) -> Option<&str>
    requires { letter < 128 }
    ensures { MatchOption result ((rest : List ℕ) → text.now ≢ letter ∷ rest) (λ rest. text.now ≡ letter ∷ rest.now) }
{
    text.strip_prefix(letter)
}

/// What stands before the first percent sign, and what behind it.
fn split_at_percent(text: &str) -> Option<(&str, &str)>
    ensures { MatchOption result
        (position_or_len (λ b. eqb b 37) text.now ≡ length text.now)
        (λ x. (position_or_len (λ b. eqb b 37) text.now < length text.now)
        × (x.0.now ≡ before_first (λ b. eqb b 37) text.now) × (x.1.now ≡ after_first (λ b. eqb b 37) text.now)) }
{
    text.split_once('%')
}

/// The directive whose letter the text begins with, and what follows it.
fn directive_at(text: &str) -> Option<(Directive, &str)>
    ensures { MatchOption result
        ((b : ℕ) (bs : List ℕ) → text.now ≡ b ∷ bs → spec.directive_of b ≡ None)
        (λ x. (b : ℕ) × (spec.directive_of b ≡ Some x.0) × (text.now ≡ b ∷ x.1.now)) }
{
    if let Some(rest) = strip_letter(text, 'Y') {
        return Some((Directive::Year, rest));
    }
    if let Some(rest) = strip_letter(text, 'm') {
        return Some((Directive::Month, rest));
    }
    if let Some(rest) = strip_letter(text, 'd') {
        return Some((Directive::Day, rest));
    }
    if let Some(rest) = strip_letter(text, 'H') {
        return Some((Directive::Hour, rest));
    }
    if let Some(rest) = strip_letter(text, 'M') {
        return Some((Directive::Minute, rest));
    }
    if let Some(rest) = strip_letter(text, 'S') {
        return Some((Directive::Second, rest));
    }
    None
}

/// Puts an ASCII byte at the end.
#[tactic(auto, using(crate::proofs::FormatLemmas::encoded))]
fn push_ascii(text: &mut String, byte: u8) -> Result<(), AllocError>
    requires { byte < 128 }
    ensures { OnOk result (string_bytes text.new ≡ string_bytes text.old ++ byte ∷ []) }
{
    text.push(byte as char)
}

/// Puts the digits of a part at the end.
fn push_digits(text: &mut String, directive: Directive, n: u16) -> Result<(), AllocError>
    ensures { OnOk result (string_bytes text.new ≡ string_bytes text.old ++ digits directive n) }
{
    if let Directive::Year = directive {
        push_ascii(text, digit(n / 1000))?;
        push_ascii(text, digit(n / 100))?;
    }
    push_ascii(text, digit(n / 10))?;
    push_ascii(text, digit(n))
}

#[tactic(auto, using(crate::proofs::FormatLemmas::plain_behind, crate::proofs::FormatLemmas::letter_behind))]
/// Puts what stands behind a percent sign at the end, and gives what follows it.
fn push_behind_percent<'a>(
    text: &mut String,
    civil: &Civil,
    behind: &'a str,
) -> Result<&'a str, AllocError>
    ensures shown { IfOk result (λ rest. string_bytes text.old ++ shown_by civil.now (pieces_behind true behind.now)
        ≡ string_bytes text.new ++ shown_by civil.now (pieces_behind false rest.now)) }
    ensures shorter { IfOk result (λ rest. length rest.now ≤ length behind.now) }
    ensures utf8 { IfOk result (λ rest. IsUtf8 rest.now) }
{
    if let Some((directive, rest)) = directive_at(behind) {
        push_digits(text, directive, civil.part(directive))?;
        return Ok(rest);
    }
    push_ascii(text, b'%')?;
    match strip_letter(behind, '%') {
        Some(rest) => Ok(rest),
        None => Ok(behind),
    }
}

#[tactic(auto, using(crate::proofs::FormatLemmas::plain_before, crate::proofs::FormatLemmas::all_plain))]
/// The text that a format shows of a date and time.
fn show(alloc: Global, civil: &Civil, format: &str) -> Result<String, AllocError>
    ensures { IfOk result (λ text. string_bytes text ≡ shown_by civil.now (pieces format.now)) }
{
    let mut text = String::new(alloc);
    let mut rest = format;
    while let Some((plain, behind)) = split_at_percent(rest) {
        text.push_str(plain)?;
        rest = push_behind_percent(&mut text, civil, behind)?;
    }
    text.push_str(rest)?;
    Ok(text)
}

/// Whether the text is a format: each percent sign stands before `Y`, `m`, `d`, `H`, `M`, `S` or a
/// second percent sign.
///
/// `%Y` is the year in four digits, and `%m`, `%d`, `%H`, `%M` and `%S` are the month, the day, the
/// hour, the minute and the second in two. `%%` is a percent sign, and all else stands for itself.
pub fn format_ok(format: &str) -> bool
    ensures { result ≡ is_format format.now }
{
    let mut percent = false;
    for byte in format.as_bytes() {
        if percent {
            if directive_of(*byte).is_none() && *byte != b'%' {
                return false;
            }
            percent = false;
        } else {
            percent = *byte == b'%';
        }
    }
    !percent
}

/// How often the format has the directive.
fn count_of(format: &[u8], directive: Directive) -> usize
    ensures { result ≡ count_of directive (pieces format.now) }
{
    let mut count = 0;
    let mut format = format;
    while let Some((piece, after)) = next_piece(format) {
        if piece.is_part(directive) {
            count += 1;
        }
        format = after;
    }
    count
}

/// Whether the text is a format that has each of the six directives exactly once, so that a text
/// by it names one second.
#[tactic(auto, unfolding(crate::specs::Format::is_whole))]
pub fn names_each_once(format: &str) -> bool
    ensures { result ≡ is_whole format.now }
{
    let bytes = format.as_bytes();
    format_ok(format)
        && count_of(bytes, Directive::Year) == 1
        && count_of(bytes, Directive::Month) == 1
        && count_of(bytes, Directive::Day) == 1
        && count_of(bytes, Directive::Hour) == 1
        && count_of(bytes, Directive::Minute) == 1
        && count_of(bytes, Directive::Second) == 1
}

/// The text of a second since 1970 in UTC by a format.
///
/// The second has to lie in the years 1 to 9998, or the answer is `OutOfRange`. A format is what
/// [`format_ok`] says; in another text a percent sign that stands before nothing of a format stands
/// for itself.
#[tactic(auto, unfolding(crate::specs::Format::shown, crate::specs::Instants::format_of), using(crate::proofs::SeenLemmas::shown_back))]
pub fn format_at(alloc: Global, seconds: i64, format: &str) -> Result<Text, TimeFault>
    ensures exact { result ≢ Err TimeFault.NoMemory → result ≡ format_of seconds format.now }
    ensures back { IfOk result (λ t. is_whole format.now ≡ true → seen t format.now ≡ Some seconds) }
{
    if !is_in_range(seconds as i128) {
        return Err(TimeFault::OutOfRange);
    }
    let civil = Civil::of_second(seconds);
    match show(alloc, &civil, format) {
        Ok(text) => Ok(Text::from_string(text)),
        Err(_) => Err(TimeFault::NoMemory),
    }
}

/// The second in the range that the text shows by the format.
#[tactic(auto, unfolding(crate::specs::Format::seen))]
fn seen(text: &str, format: &str) -> Result<i64, TimeFault>
    ensures { result ≡ ok_or (seen text.now format.now) TimeFault.BadText }
{
    let Some(civil) = civil_in(text.as_bytes(), format.as_bytes()) else {
        return Err(TimeFault::BadText);
    };
    match civil.to_second() {
        Some(second) if is_in_range(second as i128) => Ok(second),
        _ => Err(TimeFault::BadText),
    }
}

/// The second since 1970 that the text shows by the format.
///
/// It is the only one in the years 1 to 9998 whose text by the format this is, where the format has
/// each directive once ([`names_each_once`]). The answer is `BadText` where there is none. The call
/// takes no memory.
pub fn parse_at(text: &str, format: &str) -> Result<i64, TimeFault>
    ensures exact { result ≡ ok_or (seen text.now format.now) TimeFault.BadText }
    ensures shown { IfOk result (λ s. (is_in_range s ≡ true) × (shown s format.now ≡ text.now)) }
    ensures none { result ≡ Err TimeFault.BadText → is_whole format.now ≡ true
        → (s : ℤ) → is_in_range s ≡ true → shown s format.now ≢ text.now }
{
    seen(text, format)
}
