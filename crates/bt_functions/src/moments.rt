//! Moments as texts.
ghost use Rattle.std.specs.Prelude.{◌≡◌, ◌<◌, ◌/◌, ◌++◌, ◌∷◌, [], pos, IfOk, OnOk, string_bytes};
ghost use Rattle.bt_time.specs.Format.{digit};
ghost use Rattle.bt_meaning.specs.Functions as spec;

use bt_kinds::kinds::failure;
use bt_ports::NoMemory;
use bt_ports::text::Text;
use bt_time::{TimeFault, format_at};
use bt_value::{Out, Val};
use std::alloc::{AllocError, Global};

const SECOND: u64 = 1000;

/// The last digit of a number.
fn digit(n: u64) -> u8
    ensures is { result ≡ digit n }
    ensures ascii { result < 128 }
{
    b'0' + (n % 10) as u8
}

/// Puts an ASCII byte at the end.
#[tactic(auto, using(crate::proofs::Ascii::encoded))]
fn push_ascii(text: &mut String, byte: u8) -> Result<(), AllocError>
    requires { byte < 128 }
    ensures { OnOk result (string_bytes text.new ≡ string_bytes text.old ++ byte ∷ []) }
{
    text.push(byte as char)
}

/// Puts the last three digits of a number at the end.
fn push_three(text: &mut String, n: u64) -> Result<(), AllocError>
    ensures { OnOk result (string_bytes text.new ≡ string_bytes text.old ++ spec.three_digits n) }
{
    push_ascii(text, digit(n / 100))?;
    push_ascii(text, digit(n / 10))?;
    push_ascii(text, digit(n))
}

/// The whole seconds of a moment in milliseconds.
fn seconds_of(moment: u64) -> i64
    ensures { result ≡ pos (moment / 1000) }
{
    (moment / SECOND) as i64
}

/// The text of a moment in milliseconds since 1970, as `1970-01-01T00:00:00.000Z`; past the year 9998 it
/// is a failure.
pub fn now_of(alloc: Global, moment: u64) -> Result<Out, NoMemory>
    ensures { IfOk result (λ o. o ≡ spec.now_of moment) }
{
    match format_at(alloc, seconds_of(moment), "%Y-%m-%dT%H:%M:%S") {
        Ok(text) => {
            let mut text = text.into_string();
            text.push_str(".")?;
            push_three(&mut text, moment % SECOND)?;
            text.push_str("Z")?;
            Ok(Out::Value(Val::Str(Text::from_string(text))))
        }
        Err(TimeFault::OutOfRange) => failure(alloc, "now", "out of range"),
        Err(TimeFault::BadText) => failure(alloc, "now", "out of range"),
        Err(TimeFault::NoMemory) => Err(NoMemory),
    }
}
