//! The words of the command line.
use bt_ports::NoMemory;
use std::env::{Env, FillError};

/// How many bytes a word has room for at first.
const ROOM: usize = 256;

// The bytes of word `i`, if there are so many words. Word 0 is the program's name.
fn word(rt: &HostRuntime, i: usize) -> Result<Option<Vec<u8>>, NoMemory> {
    let mut room = ROOM;
    for _ in 0..usize::BITS {
        let mut bytes = vec![in rt.alloc(); 0u8; room]?;
        match rt.arg(i, bytes.as_mut_slice()) {
            Ok(len) => {
                bytes.truncate(len);
                return Ok(Some(bytes));
            }
            Err(FillError::NotPresent) => return Ok(None),
            Err(FillError::TooLong) => room = room.saturating_mul(2),
        }
    }
    Err(NoMemory)
}

/// The words after the program's name, which isn't read itself. Where one isn't UTF-8 there are none, which is no
/// command.
pub(crate) fn words(rt: &HostRuntime) -> Result<Vec<String>, NoMemory> {
    let mut words = Vec::new(rt.alloc());
    for i in 1..usize::MAX {
        let Some(bytes) = word(rt, i)? else {
            break;
        };
        match String::from_utf8(bytes) {
            Ok(word) => words.push(word)?,
            Err(_) => return Ok(Vec::new(rt.alloc())),
        }
    }
    Ok(words)
}
