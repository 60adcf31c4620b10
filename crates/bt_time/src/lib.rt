//! Instants and their texts, in UTC.
//!
//! An instant is a number of nanoseconds since 1970-01-01T00:00:00Z. The range is the years 1 to
//! 9998. The form of [`read_instant`] is that of RFC 3339, section 5.6, with these differences: the
//! letters are `T` and `Z` in upper case, a fraction has at most nine digits, and no second is 60.
#![tactic(auto)]

pub mod civil;
pub mod fault;
pub mod format;
pub mod instant;

pub use fault::TimeFault;
pub use format::{format_at, format_ok, names_each_once, parse_at};
pub use instant::read_instant;
