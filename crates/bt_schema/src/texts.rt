//! Texts that have a form of their own.
ghost use Rattle.std.specs.Prelude.{◌≡◌, ◌≤◌, ◌*◌, min, option_map};
ghost use Rattle.std.specs.Str.Parse.{digits_value};
ghost use Rattle.bt_schema.specs.Texts as spec;

/// A day and a millisecond: a period is never told to be longer.
const LONGEST: u64 = 86_400_001;

/// The milliseconds of a period, and nothing exactly where the text is badly written. A period of
/// more than a day is told as a day and a millisecond.
#[tactic(auto, unfolding(crate::specs::Texts::period))]
pub fn period(text: &str) -> Option<u64>
    ensures { result ≡ option_map (min 86400001) (spec.period text.now) }
{
    let bytes = text.as_bytes();
    match bytes {
        [] => Some(0),
        [first, ..] if first.is_ascii_digit() => measured(bytes),
        _ => None,
    }
}

fn measured(text: &[u8]) -> Option<u64>
    ensures { result ≡ option_map (λ scale. min 86400001 (digits_value 10 (spec.digits text.now) * scale)) (spec.milliseconds_in (spec.unit text.now)) }
{
    let (number, unit) = number(text);
    let scale = milliseconds_in(unit)?;
    Some((number * scale).min(LONGEST))
}

// The number that the text begins with, or the longest period if it is less, and what follows.
fn number(text: &[u8]) -> (u64, &[u8])
    ensures value { result.0 ≡ min 86400001 (digits_value 10 (spec.digits text.now)) }
    ensures rest { result.1.now ≡ spec.unit text.now }
{
    let mut value = 0u64;
    for (i, digit) in text.iter().enumerate() {
        if !digit.is_ascii_digit() {
            return (value, &text[i..]);
        }
        value = (value * 10 + (*digit - b'0') as u64).min(LONGEST);
    }
    (value, &text[text.len()..])
}

fn milliseconds_in(unit: &[u8]) -> Option<u64>
    ensures { result ≡ spec.milliseconds_in unit.now }
{
    match unit {
        b"ms" => Some(1),
        b"s" => Some(1000),
        b"m" => Some(60_000),
        b"h" => Some(3_600_000),
        _ => None,
    }
}

/// X where the text is `delim:X`.
pub fn delimiter(text: &str) -> Option<&str>
    ensures { option_map (λ x. x.now) result ≡ spec.delimiter text.now }
{
    text.strip_prefix("delim:")
}

/// Whether it is as long as a delimiter of lines may be.
pub fn fits(delimiter: &str) -> bool
    ensures { result ≡ spec.fits delimiter.now }
{
    1 <= delimiter.len() && delimiter.len() <= 16
}

/// Whether it is one ASCII byte that may part the fields of `csv`.
pub fn fits_csv(delimiter: &str) -> bool
    ensures { result ≡ spec.fits_csv delimiter.now }
{
    match delimiter.as_bytes() {
        [c] => *c != b'"' && *c != b'\r' && *c != b'\n',
        _ => false,
    }
}

/// Whether `*`, `?` or `[` stands in it.
pub fn is_glob(path: &str) -> bool
    ensures { result ≡ spec.is_glob path.now }
{
    path.as_bytes()
        .iter()
        .any(|c| *c == b'*' || *c == b'?' || *c == b'[')
}

/// The bytes that an output with this codec writes after each message, and nothing where the codec
/// has a lint.
pub fn closing_bytes(newer: bool, codec: &str) -> Option<&str>
    ensures { option_map (λ x. x.now) result ≡ spec.closing_bytes newer codec.now }
{
    if codec == "lines" {
        return Some("\n");
    }
    match delimiter(codec) {
        Some(x) if newer && fits(x) => Some(x),
        _ => None,
    }
}
