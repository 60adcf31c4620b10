//! Texts of instants.
ghost use Rattle.std.specs.Prelude.{◌≡◌, ◌<◌, ◌≤◌, ℕ, pos, length, IfSome, IfOk, Some};
ghost use Rattle.std.specs.List.{list_all};
ghost use Rattle.std.specs.Char.{is_ascii_digit};
ghost use Rattle.std.specs.Prelude.{true};
ghost use Rattle.jiff_core.specs.Calendar.{IsWithin};
ghost use Rattle.bt_time.specs.Civil.{is_civil};
ghost use Rattle.bt_time.specs.Format.{pieces};
ghost use Rattle.bt_time.specs.Instants as spec;
ghost use Rattle.bt_time.specs.Instants.{instant, answer};

use crate::TimeFault;
use crate::civil::{Civil, is_in_range};
use crate::format::{behind, civil_in, front, number};

const STAMP: &[u8] = b"%Y-%m-%dT%H:%M:%S";

const NANOSECONDS: i128 = 1_000_000_000;

fn are_digits(text: &[u8]) -> bool
    ensures { result ≡ list_all is_ascii_digit text.now }
{
    text.iter().all(|byte| byte.is_ascii_digit())
}

/// The nanoseconds of a fraction: nothing, or a point and one to nine digits.
#[tactic(auto, using(crate::proofs::InstantLemmas::scaled))]
fn fraction(text: &[u8]) -> Option<u32>
    ensures value { result ≡ spec.fraction text.now }
    ensures small { IfSome result (λ n. n < 1000000000) }
{
    let Some((point, digits)) = text.split_first() else {
        return Some(0);
    };
    if *point != b'.' || digits.is_empty() || digits.len() > 9 || !are_digits(digits) {
        return None;
    }
    Some(number(digits) * 10u32.pow(9 - digits.len() as u32))
}

/// The seconds of `HH:MM` up to 23:59.
fn clock(text: &[u8]) -> Option<u32>
    ensures value { result ≡ spec.clock text.now }
    ensures small { IfSome result (λ n. n < 86400) }
{
    let hours = front(text, 2);
    let minutes = behind(text, 3);
    if text.len() != 5 || text[2] != b':' || !are_digits(hours) || !are_digits(minutes) {
        return None;
    }
    let hours = number(hours);
    let minutes = number(minutes);
    if hours >= 24 || minutes >= 60 {
        return None;
    }
    Some(hours * 3600 + minutes * 60)
}

/// The seconds east of UTC of `Z`, or of a sign and `HH:MM`.
fn offset(text: &[u8]) -> Option<i64>
    ensures value { result ≡ spec.offset text.now }
    ensures small { IfSome result (λ n. IsWithin 86400 n) }
{
    let (sign, rest) = text.split_first()?;
    if rest.is_empty() {
        return if *sign == b'Z' { Some(0) } else { None };
    }
    let seconds = clock(rest)? as i64;
    match *sign {
        b'+' => Some(seconds),
        b'-' => Some(-seconds),
        _ => None,
    }
}

/// Where the offset begins.
fn offset_at(text: &[u8]) -> usize
    ensures { result ≡ spec.offset_at text.now }
{
    if !text.is_empty() && text[text.len() - 1] == b'Z' {
        text.len() - 1
    } else {
        text.len().saturating_sub(6)
    }
}

fn signed(fraction: u32) -> i32
    requires { fraction < 1000000000 }
    ensures { result ≡ pos fraction }
{
    fraction as i32
}

/// The nanoseconds since 1970 of a date and time with a fraction and an offset.
#[tactic(auto, unfolding(crate::specs::Instants::instant_of))]
fn instant_of(civil: Civil, fraction: u32, offset: i64) -> Option<i128>
    requires exists { is_civil civil ≡ true }
    requires fraction { fraction < 1000000000 }
    requires offset { IsWithin 86400 offset }
    ensures { result ≡ Some (spec.instant_of civil fraction offset) }
{
    let nanoseconds = civil.to_nanoseconds(signed(fraction))?;
    Some(nanoseconds - offset as i128 * NANOSECONDS)
}

/// The nanoseconds since 1970 that the text names.
#[tactic(auto, unfolding(crate::specs::Instants::instant))]
fn instant(text: &[u8]) -> Option<i128>
    ensures { result ≡ instant text.now }
{
    let civil = civil_in(front(text, 19), STAMP)?;
    let rest = behind(text, 19);
    let at = offset_at(rest);
    let fraction = fraction(front(rest, at))?;
    let offset = offset(behind(rest, at))?;
    instant_of(civil, fraction, offset)
}

/// The instant that a text names, in nanoseconds since 1970-01-01T00:00:00Z.
///
/// The text is `YYYY-MM-DDTHH:MM:SS`, then nothing or a point and one to nine digits, then `Z` or a
/// sign and `HH:MM` up to 23:59, with a date that exists and a time of day to 23:59:59. Another text
/// is `BadText`, and an instant whose second, rounded down, lies outside the years 1 to 9998 is
/// `OutOfRange`. The call takes no memory.
pub fn read_instant(text: &str) -> Result<i128, TimeFault>
    ensures exact { result ≡ answer (instant text.now) }
{
    match instant(text.as_bytes()) {
        None => Err(TimeFault::BadText),
        Some(nanoseconds) => {
            if is_in_range(nanoseconds.div_euclid(NANOSECONDS)) {
                Ok(nanoseconds)
            } else {
                Err(TimeFault::OutOfRange)
            }
        }
    }
}
