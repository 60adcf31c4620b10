//! Numbers of the command line.
ghost use Rattle.std.specs.Prelude.{◌^◌, ◌<◌, ℕ, MatchOption};
ghost use Rattle.bt_command_line.specs.Commands.{IsNumber};

/// The number that a run of decimal digits is, and nothing exactly where the text is no such run or
/// the number has more than 64 bits.
pub fn number(text: &str) -> Option<u64>
    ensures { MatchOption result ((n : ℕ) → n < 2 ^ 64 → IsNumber n text.now → ⊥) (λ n. IsNumber n text.now) }
{
    if text.as_bytes().first() == Some(&b'+') {
        return None;
    }
    match text.parse::<u64>() {
        Ok(n) => Some(n),
        Err(_) => None,
    }
}
