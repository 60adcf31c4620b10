//! Texts read and written, and values compared.

use crate::fault::Fault;
use bt_ports::blob::Blob;
use bt_value::{
    JsonFault, Val, compare, copy, deeper, depth, equals, has_bytes, read_json, write_json,
    write_json_after, write_pretty,
};
use std::alloc::Global;
use std::cmp::Ordering;

fn string_of(alloc: Global, text: Blob) -> Result<String, Fault> {
    Ok(String::from_utf8_lossy(alloc, text.as_slice())?)
}

/// The compact text of the value.
pub fn shown(alloc: Global, v: &Val) -> Result<String, Fault> {
    if has_bytes(v) {
        return Ok(String::from_str(alloc, "bytes")?);
    }
    string_of(alloc, write_json(alloc, v)?)
}

/// What the bytes are read as.
pub fn read(alloc: Global, bytes: &[u8]) -> Result<String, Fault> {
    shown(alloc, &read_json(alloc, bytes)?)
}

/// What the bytes are read as, whose numbers stand with blanks between.
pub fn read_bytes(alloc: Global, numbers: &str) -> Result<String, Fault> {
    let mut bytes = Vec::new(alloc);
    for number in numbers.split(' ') {
        bytes.push(number.parse::<u8>().unwrap_or(0))?;
    }
    read(alloc, bytes.as_slice())
}

/// A list within lists, this many in all.
pub fn nested(alloc: Global, levels: u32) -> Result<Vec<u8>, Fault> {
    let mut text = Vec::new(alloc);
    for _ in 0..levels {
        text.push(b'[')?;
    }
    for _ in 0..levels {
        text.push(b']')?;
    }
    Ok(text)
}

/// How deep a list within lists nests, where it is read.
pub fn read_nested(alloc: Global, levels: u32) -> Result<String, Fault> {
    let text = nested(alloc, levels)?;
    let value = read_json(alloc, text.as_slice())?;
    let deep = depth(&value);
    Ok(format!(in alloc; "depth {deep}")?)
}

/// The value's text behind another.
pub fn write_after(alloc: Global, before: &str, text: &str) -> Result<String, Fault> {
    let value = read_json(alloc, text.as_bytes())?;
    let buffer = Blob::make(alloc, before.as_bytes())?;
    string_of(alloc, write_json_after(&value, buffer)?)
}

/// The value's pretty text, with a tilde for each line feed.
pub fn pretty(alloc: Global, text: &str) -> Result<String, Fault> {
    let value = read_json(alloc, text.as_bytes())?;
    let pretty = string_of(alloc, write_pretty(alloc, &value)?)?;
    let mut line = String::new(alloc);
    for (i, part) in pretty.as_str().split('\n').enumerate() {
        if i > 0 {
            line.push_str("~")?;
        }
        line.push_str(part)?;
    }
    Ok(line)
}

/// A copy.
pub fn copied(alloc: Global, text: &str) -> Result<String, Fault> {
    let value = read_json(alloc, text.as_bytes())?;
    shown(alloc, &copy(alloc, &value)?)
}

fn word(order: Ordering) -> &'static str {
    match order {
        Ordering::Less => "less",
        Ordering::Equal => "equal",
        Ordering::Greater => "greater",
    }
}

/// How two values compare, and whether they are equal.
pub fn compared(alloc: Global, left: &str, right: &str) -> Result<String, Fault> {
    let a = read_json(alloc, left.as_bytes())?;
    let b = read_json(alloc, right.as_bytes())?;
    let order = word(compare(&a, &b));
    let same = equals(&a, &b);
    Ok(format!(in alloc; "{order} {same}")?)
}

/// Whether the value nests deeper than the limit.
pub fn is_deeper(alloc: Global, text: &str, limit: u32) -> Result<String, Fault> {
    let value = read_json(alloc, text.as_bytes())?;
    let past = deeper(&value, limit);
    Ok(format!(in alloc; "{past}")?)
}
