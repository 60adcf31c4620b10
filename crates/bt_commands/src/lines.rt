//! The lines of `err` that several commands say, put together without taking memory.
ghost use Rattle.std.specs.Prelude.{◌≡◌, ◌+◌, ◌++◌, ◌≤◌, length, decimal};
ghost use Rattle.bt_commands.specs.Lines.{bound_line, long_line};

use arrayvec::ArrayString;
use itoa::Buffer;

/// Room for the longest of these lines: its words, and seven numbers of 20 digits.
pub const ROOM: usize = 256;

/// A line in a room of its own.
pub type Line = ArrayString<ROOM>;

/// Puts a number's decimal digits behind the line.
pub fn push_number(line: &mut Line, n: u64)
    requires { length line.old.bytes + 20 ≤ ROOM }
    ensures bytes { line.new.bytes ≡ line.old.bytes ++ decimal n }
    ensures length { length line.new.bytes ≤ length line.old.bytes + 20 }
{
    let mut digits = Buffer::new();
    line.push_str(digits.format(n));
}

/// `input: B bytes taken`.
pub fn bound_line(bytes: u64) -> Line
    ensures { result.bytes ≡ bound_line bytes }
{
    let mut line = Line::new();
    line.push_str("input: ");
    push_number(&mut line, bytes);
    line.push_str(" bytes taken");
    line
}

/// `line N: longer than 65536 bytes`.
pub fn long_line(n: u64) -> Line
    ensures { result.bytes ≡ long_line n }
{
    let mut line = Line::new();
    line.push_str("line ");
    push_number(&mut line, n);
    line.push_str(": longer than 65536 bytes");
    line
}
