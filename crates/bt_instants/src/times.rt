//! The methods on instants, in UTC.
ghost use Rattle.std.specs.Prelude.{◌≡◌, IfOk};
ghost use Rattle.bt_instants.specs.Times as spec;

use bt_kinds::kinds::{Kind, failure, kind_of, wrong};
use bt_kinds::targets::string;
use bt_ports::NoMemory;
use bt_ports::text::Text;
use bt_time::civil::is_in_range;
use bt_time::{TimeFault, format_at, parse_at, read_instant};
use bt_value::{Out, Val};
use std::alloc::Global;

const NANOSECONDS_A_SECOND: i128 = 1_000_000_000;

const NANOSECONDS_A_MILLISECOND: i128 = 1_000_000;

/// What names an instant.
#[derive(Drop)]
pub enum Stamp {
    /// Seconds since 1970.
    Seconds(i64),
    /// A text as `1970-01-01T00:00:00Z`.
    Written(Text),
}

/// The instant's name that a value is, or its kind.
#[tactic(auto, unfolding(crate::specs::Times::stamp))]
fn stamp_of(v: Val) -> Result<Stamp, Kind>
    ensures { result ≡ spec.stamp v }
{
    match v {
        Val::Int(n) => Ok(Stamp::Seconds(n)),
        Val::Str(s) => Ok(Stamp::Written(s)),
        other => Err(kind_of(&other)),
    }
}

/// The second that an instant lies in.
#[tactic(auto, using(crate::proofs::Ranges::second_fits))]
fn second_of(stamp: &Stamp) -> Result<i64, TimeFault>
    ensures { result ≡ spec.second stamp.now }
{
    match stamp {
        Stamp::Seconds(n) => {
            if is_in_range(*n as i128) {
                Ok(*n)
            } else {
                Err(TimeFault::OutOfRange)
            }
        }
        Stamp::Written(text) => match read_instant(text.as_str()) {
            Ok(n) => Ok(n.div_euclid(NANOSECONDS_A_SECOND) as i64),
            Err(fault) => Err(fault),
        },
    }
}

/// The millisecond that an instant lies in.
#[tactic(auto, using(crate::proofs::Ranges::millisecond_fits, crate::proofs::Ranges::thousand_fits))]
fn millisecond_of(stamp: &Stamp) -> Result<i64, TimeFault>
    ensures { result ≡ spec.millisecond stamp.now }
{
    match stamp {
        Stamp::Seconds(n) => {
            if is_in_range(*n as i128) {
                Ok(*n * 1000)
            } else {
                Err(TimeFault::OutOfRange)
            }
        }
        Stamp::Written(text) => match read_instant(text.as_str()) {
            Ok(n) => Ok(n.div_euclid(NANOSECONDS_A_MILLISECOND) as i64),
            Err(fault) => Err(fault),
        },
    }
}

/// The failure that a fault of bt_time is.
fn faulty(alloc: Global, name: &str, fault: TimeFault) -> Result<Out, NoMemory>
    ensures { IfOk result (λ o. o ≡ spec.faulty name.now fault) }
{
    match fault {
        TimeFault::BadText => failure(alloc, name, "bad text"),
        TimeFault::OutOfRange => failure(alloc, name, "out of range"),
        TimeFault::NoMemory => Err(NoMemory),
    }
}

/// Whole seconds since 1970, rounded down.
pub fn ts_unix(alloc: Global, target: Val) -> Result<Out, NoMemory>
    ensures { IfOk result (λ o. o ≡ spec.ts_unix target) }
{
    match stamp_of(target) {
        Ok(stamp) => match second_of(&stamp) {
            Ok(n) => Ok(Out::Value(Val::Int(n))),
            Err(fault) => faulty(alloc, "ts_unix", fault),
        },
        Err(kind) => wrong(alloc, "ts_unix", kind),
    }
}

/// Whole milliseconds since 1970, rounded down.
pub fn ts_unix_milli(alloc: Global, target: Val) -> Result<Out, NoMemory>
    ensures { IfOk result (λ o. o ≡ spec.ts_unix_milli target) }
{
    match stamp_of(target) {
        Ok(stamp) => match millisecond_of(&stamp) {
            Ok(n) => Ok(Out::Value(Val::Int(n))),
            Err(fault) => faulty(alloc, "ts_unix_milli", fault),
        },
        Err(kind) => wrong(alloc, "ts_unix_milli", kind),
    }
}

/// The text of a second by a format, or the failure of a fault.
fn shown(
    alloc: Global,
    name: &str,
    second: Result<i64, TimeFault>,
    format: &str,
) -> Result<Out, NoMemory>
    ensures { IfOk result (λ o. o ≡ spec.shown_at name.now second format.now) }
{
    match second {
        Ok(n) => match format_at(alloc, n, format) {
            Ok(text) => Ok(Out::Value(Val::Str(text))),
            Err(TimeFault::BadText) => faulty(alloc, name, TimeFault::BadText),
            Err(TimeFault::OutOfRange) => faulty(alloc, name, TimeFault::OutOfRange),
            Err(TimeFault::NoMemory) => Err(NoMemory),
        },
        Err(fault) => faulty(alloc, name, fault),
    }
}

/// The text of an instant's second by a format.
pub fn ts_strftime(alloc: Global, target: Val, format: Val) -> Result<Out, NoMemory>
    ensures { IfOk result (λ o. o ≡ spec.ts_strftime target format) }
{
    match stamp_of(target) {
        Ok(stamp) => match string(format) {
            Ok(format) => shown(alloc, "ts_strftime", second_of(&stamp), format.as_str()),
            Err(kind) => wrong(alloc, "ts_strftime", kind),
        },
        Err(kind) => wrong(alloc, "ts_strftime", kind),
    }
}

/// The instant that a text shows by a format, as `1970-01-01T00:00:00Z`.
pub fn ts_strptime(alloc: Global, target: Val, format: Val) -> Result<Out, NoMemory>
    ensures { IfOk result (λ o. o ≡ spec.ts_strptime target format) }
{
    match string(target) {
        Ok(text) => match string(format) {
            Ok(format) => {
                let second = parse_at(text.as_str(), format.as_str());
                shown(alloc, "ts_strptime", second, "%Y-%m-%dT%H:%M:%SZ")
            }
            Err(kind) => wrong(alloc, "ts_strptime", kind),
        },
        Err(kind) => wrong(alloc, "ts_strptime", kind),
    }
}
