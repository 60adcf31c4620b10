//! What keeps a text from being an instant, or an instant from having a text.

/// Why a text or an instant was refused.
#[derive(Clone, Copy, Debug, PartialEq, Eq, thiserror::Error)]
pub enum TimeFault {
    /// The text hasn't the form, or its date or time doesn't exist.
    #[error("bad text")]
    BadText,
    /// The instant lies outside the years 1 to 9998.
    #[error("out of range")]
    OutOfRange,
    /// Memory was wanted and there was none.
    #[error("no memory")]
    NoMemory,
}
