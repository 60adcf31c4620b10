//! One line: where it ends, whether it may still be short, and its bytes.
ghost use Rattle.std.specs.Prelude.{◌≡◌, ℕ, ◌≤◌, [], ◌∷◌, length, IfOk, None, MatchOption, MatchBool};
ghost use Rattle.std.specs.Io.BufRead.{strip_last};
ghost use Rattle.bt_lines.specs.Lines.{item};
ghost use Rattle.bt_lines.specs.Pieces.{NoneIn, FirstAt};
ghost use Rattle.bt_intake.specs.Ending.{MayEnd, IsTooLong};

use bt_lines::LONGEST;
use bt_ports::NoMemory;
use bt_ports::blob::Blob;
use memchr::{memchr, memmem};
use std::alloc::Global;

/// The place of the first delimiter.
pub(crate) fn first_place(bytes: &[u8], delimiter: &[u8]) -> Option<usize>
    requires { 1 ≤ length delimiter.now }
    ensures { MatchOption result (NoneIn delimiter.now bytes.now) (λ n. FirstAt delimiter.now bytes.now n) }
{
    match delimiter {
        [byte] => first_byte(bytes, *byte),
        _ => first_needle(bytes, delimiter),
    }
}

fn first_byte(bytes: &[u8], byte: u8) -> Option<usize>
    ensures { MatchOption result (NoneIn (byte ∷ []) bytes.now) (λ n. FirstAt (byte ∷ []) bytes.now n) }
{
    memchr(byte, bytes)
}

fn first_needle(bytes: &[u8], needle: &[u8]) -> Option<usize>
    requires { 1 ≤ length needle.now }
    ensures { MatchOption result (NoneIn needle.now bytes.now) (λ n. FirstAt needle.now bytes.now n) }
{
    memmem::find(bytes, needle)
}

/// Whether the delimiter may still end a line of these bytes, in which it doesn't stand, before it is too long.
pub(crate) fn may_end(bytes: &[u8], delimiter: &[u8]) -> bool
    requires { 1 ≤ length delimiter.now }
    ensures { MatchBool result (MayEnd delimiter.now bytes.now) (IsTooLong delimiter.now bytes.now) }
{
    if bytes.len() <= LONGEST {
        return true;
    }
    let mut place = (bytes.len() + 1).saturating_sub(delimiter.len());
    'places: while place <= LONGEST {
        if delimiter.starts_with(&bytes[place..]) {
            return true;
        }
        place += 1;
    }
    false
}

/// The bytes without one carriage return at their end.
fn without_carriage_return(bytes: &[u8]) -> &[u8]
    ensures { result.now ≡ strip_last 13 bytes.now }
{
    match bytes.split_last() {
        Some((last, front)) if *last == b'\r' => front,
        _ => bytes,
    }
}

/// The bytes of an item that a line makes.
pub(crate) fn item_bytes(alloc: Global, line: &[u8], delimiter: &[u8]) -> Result<Blob, NoMemory>
    ensures { IfOk result (λ bytes. bytes ≡ (item delimiter.now None line.now).bytes) }
{
    if delimiter == b"\n".as_slice() {
        Blob::make(alloc, without_carriage_return(line))
    } else {
        Blob::make(alloc, line)
    }
}
