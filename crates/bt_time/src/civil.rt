//! A date with a time of day.
ghost use Rattle.std.specs.Prelude.{ℤ, true, ◌≡◌, ◌↔◌, ◌<◌, ◌≤◌, ◌^◌, pos, ◌+ℤ◌, ◌≤ℤ◌, IsTrue, IsSome, IsSomeAnd, IfSome, IfOk, IsOk, Some};
ghost use Rattle.jiff_core.specs.DateTime.{civil_nanos, IsCivilNanos};
ghost use Rattle.bt_time.specs.declared.civil.Civil.{Civil};
ghost use Rattle.jiff_core.specs.Calendar.{IsBetween};
ghost use Rattle.bt_time.specs.Instants.{nanos};
ghost use Rattle.bt_time.specs.Civil.{is_civil, seconds_of, civil_of, is_in_range};

use jiff::Timestamp;
use jiff::civil::DateTime;
use jiff::tz::Offset;

/// A date with a time of day in UTC, as its numbers are written.
///
/// The numbers may name a date that the calendar lacks.
#[derive(Clone, Copy, Debug, PartialEq, Eq)]
pub struct Civil {
    /// From 0; the year 0 is the one before the year 1.
    pub year: u16,
    /// From 1.
    pub month: u16,
    /// From 1.
    pub day: u16,
    /// From 0 to 23.
    pub hour: u16,
    /// From 0 to 59.
    pub minute: u16,
    /// From 0 to 59.
    pub second: u16,
}

/// The first second of the range, 0001-01-01T00:00:00Z.
pub const FIRST_SECOND: i64 = -62_135_596_800;

/// The first second past the range, 9999-01-01T00:00:00Z.
pub const END_SECOND: i64 = 253_370_764_800;

/// Whether the second lies in the years 1 to 9998.
pub fn is_in_range(second: i128) -> bool
    ensures { result ≡ is_in_range second }
{
    FIRST_SECOND as i128 <= second && second < END_SECOND as i128
}

/// 1970-01-01T00:00:00.
fn epoch() -> DateTime
    ensures { civil_nanos result ≡ pos 0 }
{
    Offset::UTC.to_datetime(Timestamp::UNIX_EPOCH)
}

/// The nanoseconds since 1970 of a datetime.
#[tactic(auto, using(jiff_core::proofs::DateTimeLemmas::civil_nanos_range))]
fn nanoseconds(datetime: DateTime) -> i128
    ensures value { result ≡ civil_nanos datetime }
    ensures bound { IsCivilNanos result }
{
    datetime.duration_since(epoch()).as_nanos()
}

fn year_of(year: i16) -> u16
    requires { pos 0 ≤ℤ year }
    ensures { pos result ≡ year }
{
    year as u16
}

fn part_of(n: i8) -> u16
    requires { pos 0 ≤ℤ n }
    ensures { pos result ≡ n }
{
    n as u16
}

fn timestamp(second: i64) -> Timestamp
    requires { is_in_range second ≡ true }
    ensures { result.nanosecond ≡ nanos second }
{
    Timestamp::from_second(second).unwrap()
}

/// The date and time of a datetime, without the fraction of its second.
fn of_datetime(datetime: DateTime) -> Civil
    requires { pos 0 ≤ℤ datetime.date.year }
    ensures exists { is_civil result ≡ true }
    ensures second { nanos (seconds_of result) +ℤ pos datetime.time.subsec_nanosecond ≡ civil_nanos datetime }
{
    Civil {
        year: year_of(datetime.year()),
        month: part_of(datetime.month()),
        day: part_of(datetime.day()),
        hour: part_of(datetime.hour()),
        minute: part_of(datetime.minute()),
        second: part_of(datetime.second()),
    }
}

fn year_number(n: u16) -> i16
    requires { n < 10000 }
    ensures { result ≡ pos n }
{
    n as i16
}

fn small_number(n: u16) -> i8
    requires { n < 100 }
    ensures { result ≡ pos n }
{
    n as i8
}

impl Civil {
    /// The datetime of crate `jiff`, where the calendar has the date and a clock the time.
    pub(crate) fn to_datetime(self, nanosecond: i32) -> Option<DateTime>
        requires { IsBetween (pos 0) (pos 999999999) nanosecond }
        ensures found { IsSome result ↔ IsTrue (is_civil self) }
        ensures value { IfSome result (λ dt. civil_nanos dt ≡ nanos (seconds_of self) +ℤ nanosecond) }
    {
        let Civil {
            year,
            month,
            day,
            hour,
            minute,
            second,
        } = self;
        if year > 9999 || month > 12 || day > 31 || hour > 23 || minute > 59 || second > 59 {
            return None;
        }
        DateTime::new(
            year_number(year),
            small_number(month),
            small_number(day),
            small_number(hour),
            small_number(minute),
            small_number(second),
            nanosecond,
        )
        .ok()
    }

    /// Whether the calendar has the date, in the years 0 to 9999, and a clock the time.
    pub fn exists(self) -> bool
        ensures { result ≡ is_civil self }
    {
        self.to_datetime(0).is_some()
    }

    /// The nanoseconds since 1970 of the date and time with a fraction of its second.
    pub(crate) fn to_nanoseconds(self, nanosecond: i32) -> Option<i128>
        requires { IsBetween (pos 0) (pos 999999999) nanosecond }
        ensures found { IsSome result ↔ IsTrue (is_civil self) }
        ensures value { IfSome result (λ n. n ≡ nanos (seconds_of self) +ℤ nanosecond) }
        ensures bound { IfSome result IsCivilNanos }
    {
        self.to_datetime(nanosecond).map(nanoseconds)
    }

    /// The seconds since 1970 of the date and time.
    pub fn to_second(self) -> Option<i64>
        ensures found { IsSome result ↔ IsTrue (is_civil self) }
        ensures value { IfSome result (λ s. s ≡ seconds_of self) }
    {
        let nanoseconds = self.to_nanoseconds(0)?;
        Some(nanoseconds.div_euclid(1_000_000_000) as i64)
    }

    /// The date and time of a second.
    pub fn of_second(second: i64) -> Civil
        requires { is_in_range second ≡ true }
        ensures { result ≡ civil_of second }
    {
        of_datetime(Offset::UTC.to_datetime(timestamp(second)))
    }
}

/// A law: each second of the range is that of one date and time, and the other way round.
pub fn one_second_each()
    ensures second { (s : ℤ) → is_in_range s ≡ true
        → (is_civil (civil_of s) ≡ true) × (seconds_of (civil_of s) ≡ s) }
    ensures civil { (c : Civil) → is_civil c ≡ true → civil_of (seconds_of c) ≡ c }
{}
