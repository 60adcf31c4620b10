//! What is timed.

use bt_doc::Doc;
use bt_ports::NoMemory;
use bt_ports::blob::Blob;
use bt_value::{Val, has_bytes, read_json, read_json_with, write_json, write_json_after};
use json::Scratch;
use serde_json::Value;
use std::alloc::Global;
use std::mem;

/// The ways: reading with nothing kept and with room kept, reading and writing in the same two ways, a look at one path; and
/// reading, and reading and writing, by way of a value of `serde_json`.
pub const WAYS: [&str; 7] = [
    "read",
    "read_kept",
    "read_write",
    "read_write_kept",
    "look",
    "by_value_read",
    "by_value_read_write",
];

const REFUSED: usize = 1_000_000;

fn length(text: Result<Blob, NoMemory>) -> usize {
    match text {
        Ok(text) => text.as_slice().len(),
        Err(_) => REFUSED,
    }
}

fn written(alloc: Global, v: &Val) -> usize {
    if has_bytes(v) {
        return REFUSED;
    }
    length(write_json(alloc, v))
}

// The text goes into the buffer's room.
fn written_kept(alloc: Global, v: &Val, buffer: &mut Blob) -> usize {
    if has_bytes(v) {
        return REFUSED;
    }
    let mut room = mem::replace(buffer, Blob::new(alloc)).into_vec();
    room.clear();
    match write_json_after(v, Blob::from_vec(room)) {
        Ok(text) => {
            let len = text.as_slice().len();
            *buffer = text;
            len
        }
        Err(_) => REFUSED,
    }
}

fn looked(alloc: Global, line: &[u8], scratch: &mut Scratch) -> usize {
    match Doc::open(alloc, line, scratch) {
        Ok(doc) => match doc.root().get("level") {
            Some(part) => if part.as_str() == Some("error") { 1 } else { 0 },
            None => 0,
        },
        Err(_) => REFUSED,
    }
}

fn by_value(alloc: Global, line: &[u8]) -> usize {
    match Value::from_slice(alloc, line) {
        Ok(value) => match value.to_vec(alloc) {
            Ok(text) => text.len(),
            Err(_) => REFUSED,
        },
        Err(_) => REFUSED,
    }
}

/// A number that shows what was done with the message in this way.
pub fn go(
    alloc: Global,
    way: &str,
    line: &[u8],
    scratch: &mut Scratch,
    buffer: &mut Blob,
) -> usize {
    match way {
        "read" => match read_json(alloc, line) {
            Ok(_) => 1,
            Err(_) => REFUSED,
        },
        "read_kept" => match read_json_with(alloc, line, scratch) {
            Ok(_) => 1,
            Err(_) => REFUSED,
        },
        "read_write" => match read_json(alloc, line) {
            Ok(v) => written(alloc, &v),
            Err(_) => REFUSED,
        },
        "read_write_kept" => match read_json_with(alloc, line, scratch) {
            Ok(v) => written_kept(alloc, &v, buffer),
            Err(_) => REFUSED,
        },
        "look" => looked(alloc, line, scratch),
        "by_value_read" => match Value::from_slice(alloc, line) {
            Ok(_) => 1,
            Err(_) => REFUSED,
        },
        _ => by_value(alloc, line),
    }
}
