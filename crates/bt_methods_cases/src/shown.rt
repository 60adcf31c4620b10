//! What comes of a case, as a line.

use bt_ports::NoMemory;
use bt_ports::text::Text;
use bt_value::{Out, Val, Vals, has_bytes, write_json};
use std::alloc::Global;

// A text as it is, behind a word for its kind.
fn worded(alloc: Global, word: &str, text: &[u8]) -> Result<Text, NoMemory> {
    let mut line = Text::make(alloc, word)?;
    let shown = String::from_utf8_lossy(alloc, text)?;
    line.push_str(shown.as_str())?;
    Ok(line)
}

// JSON, and the bytes of a value that are none behind `bytes`.
fn value(alloc: Global, v: &Val) -> Result<Text, NoMemory> {
    match v {
        Val::Bytes(bytes) => worded(alloc, "bytes ", bytes.as_slice()),
        _ => {
            if has_bytes(v) {
                return Text::make(alloc, "bytes within");
            }
            let text = write_json(alloc, v)?;
            worded(alloc, "", text.as_slice())
        }
    }
}

fn list(alloc: Global, items: &Vals) -> Result<Text, NoMemory> {
    let mut line = Text::make(alloc, "list of")?;
    for item in items.as_slice() {
        let shown = value(alloc, item)?;
        line.push_str(" (")?;
        line.push_str(shown.as_str())?;
        line.push_str(")")?;
    }
    Ok(line)
}

// A list with bytes among its elements, or any other value.
fn value_or_list(alloc: Global, v: &Val) -> Result<Text, NoMemory> {
    match v {
        Val::Arr(items) => {
            if has_bytes(v) {
                list(alloc, items)
            } else {
                value(alloc, v)
            }
        }
        _ => value(alloc, v),
    }
}

/// What a call gave, as a line.
pub fn outcome(alloc: Global, out: &Out) -> Result<Text, NoMemory> {
    match out {
        Out::Value(v) => value_or_list(alloc, v),
        Out::Failed(text) => worded(alloc, "failed ", text.as_str().as_bytes()),
        Out::Deleted => Text::make(alloc, "deleted"),
        Out::Nothing => Text::make(alloc, "nothing"),
    }
}
