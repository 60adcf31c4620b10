//! Numbers, texts and keys.

ghost use Rattle.std.specs.Prelude.{◌≡◌, ◌++◌, [], ◌∷◌, OnOk, IfOk, string_bytes};
ghost use Rattle.json.specs.Print.{quoted};
ghost use Rattle.bt_words.specs.Printing.{Token, int_digits, key_word};
ghost use Rattle.bt_print.specs.Steps.{after};

use bt_ports::NoMemory;
use bt_ports::text::Text;
use bt_tree::Key;
use itoa::Buffer;
use json::Writer;
use std::alloc::{AllocError, Global};

/// A text in quotation marks, as a compact JSON text.
fn quoted_string(alloc: Global, s: &str) -> Result<String, AllocError>
    ensures { IfOk result (λ t. string_bytes t ≡ quoted s.now) }
{
    let mut writer = Writer::new(Vec::new(alloc));
    writer.string(s)?;
    match String::from_utf8(writer.into_inner()) {
        Ok(text) => Ok(text),
        Err(_) => unreachable!(),
    }
}

/// A text in quotation marks.
pub fn text(alloc: Global, out: &mut Text, s: &str) -> Result<(), NoMemory>
    ensures { OnOk result (out.new ≡ out.old ++ quoted s.now) }
{
    match quoted_string(alloc, s) {
        Ok(quoted) => out.push_str(quoted.as_str()),
        Err(_) => Err(NoMemory),
    }
}

/// The digits of a number.
pub fn int(out: &mut Text, n: i64) -> Result<(), NoMemory>
    ensures { OnOk result (out.new ≡ out.old ++ int_digits n) }
{
    if n < 0 {
        return out.push_str("0");
    }
    let mut buffer = Buffer::new();
    out.push_str(buffer.format(n))
}

/// A key's name or text.
pub fn key(alloc: Global, out: &mut Text, key: &Key) -> Result<(), NoMemory>
    ensures { OnOk result (out.new ≡ after out.old (Token (key_word key.now) ∷ [])) }
{
    match key {
        Key::Name(name) => out.push_str(name.as_str()),
        Key::Quoted(s) => text(alloc, out, s.as_str()),
    }
}
