//! Pointers of RFC 6901.
ghost use Rattle.std.specs.Prelude.{◌≡◌, ◌++◌, IfOk, OnOk, string_bytes};
ghost use Rattle.bt_schema.specs.Pointer as spec;

use bt_ports::NoMemory;
use bt_ports::text::Text;
use std::alloc::{AllocError, Global};

/// The pointer of the member `key` of what stands at `at`.
pub fn under(alloc: Global, at: &str, key: &str) -> Result<Text, NoMemory>
    ensures { IfOk result (λ t. t ≡ spec.under at.now key.now) }
{
    match member_text(alloc, at, key) {
        Ok(text) => Ok(Text::from_string(text)),
        Err(_) => Err(NoMemory),
    }
}

/// The pointer of the element `i` of what stands at `at`.
pub fn nth(alloc: Global, at: &str, i: usize) -> Result<Text, NoMemory>
    ensures { IfOk result (λ t. t ≡ spec.nth at.now i) }
{
    match element_text(alloc, at, i) {
        Ok(text) => Ok(Text::from_string(text)),
        Err(_) => Err(NoMemory),
    }
}

#[tactic(auto, unfolding(crate::specs::Pointer::nth))]
fn element_text(alloc: Global, at: &str, i: usize) -> Result<String, AllocError>
    ensures { IfOk result (λ s. string_bytes s ≡ spec.nth at.now i) }
{
    format!(in alloc; "{at}/{i}")
}

#[tactic(auto, unfolding(crate::specs::Pointer::under))]
fn member_text(alloc: Global, at: &str, key: &str) -> Result<String, AllocError>
    ensures { IfOk result (λ s. string_bytes s ≡ spec.under at.now key.now) }
{
    let escaped = escape(alloc, key)?;
    format!(in alloc; "{at}/{escaped}")
}

#[tactic(auto, using(std::proofs::lemmas::Grind::common_steps))]
fn escape(alloc: Global, key: &str) -> Result<String, AllocError>
    ensures { IfOk result (λ s. string_bytes s ≡ spec.escaped key.now) }
{
    let mut out = String::new(alloc);
    for c in key.chars() {
        push_escaped(&mut out, c)?;
    }
    Ok(out)
}

fn push_escaped(out: &mut String, c: char) -> Result<(), AllocError>
    ensures { OnOk result (string_bytes out.new ≡ string_bytes out.old ++ spec.escaped_char c) }
{
    match c {
        '~' => out.push_str("~0"),
        '/' => out.push_str("~1"),
        c => out.push(c),
    }
}
