//! Whether a condition holds.
ghost use Rattle.std.specs.Prelude.{◌≡◌, IfOk, Some};
ghost use Rattle.bt_matches.specs.Patterns.{has_match};
ghost use Rattle.bt_meaning.specs.Contents.{document as read_content};
ghost use Rattle.bt_expectations.specs.Conditions as spec;
ghost use Rattle.bt_expectations.specs.Within as within;
ghost use Rattle.bt_value.specs.Keys.{find};
ghost use Rattle.bt_value.specs.Order as order;

use crate::condition::Expectation;
use crate::within::is_within;
use bt_mappings::{Spot, check, document};
use bt_patterns::Pattern;
use bt_ports::NoMemory;
use bt_value::{Members, Msg, Val, equals};
use std::alloc::{AllocError, Global};

/// Whether a message at a place of its batch is as expected.
pub fn holds(
    alloc: Global,
    expectation: &Expectation,
    msg: &Msg,
    spot: Spot,
) -> Result<bool, NoMemory>
    ensures { IfOk result (λ b. b ≡ spec.holds expectation.now msg.now spot) }
{
    match expectation {
        Expectation::Bloblang(ready) => check(alloc, ready, msg, spot),
        Expectation::ContentEquals(text) => {
            Ok(msg.content.as_slice() == text.as_str().as_bytes())
        }
        Expectation::ContentMatches(pattern) => matches(alloc, pattern, msg.content.as_slice()),
        Expectation::JsonContains(v) => json_contains(alloc, v, msg.content.as_slice()),
        Expectation::JsonEquals(v) => json_equals(alloc, v, msg.content.as_slice()),
        Expectation::MetadataEquals(members) => Ok(has_metadata(members, &msg.meta)),
    }
}

// Whether the text has a match.
fn has_match(alloc: Global, pattern: &Pattern, text: &str) -> Result<bool, AllocError>
    ensures { IfOk result (λ b. has_match pattern.now text.now ≡ Some b) }
{
    let regex = pattern.regex();
    let mut matcher = regex.matcher(alloc)?;
    Ok(matcher.is_match(text))
}

#[tactic(auto, using(bt_texts::proofs::Utf8::is_text, bt_texts::proofs::Utf8::no_text))]
fn matches(alloc: Global, pattern: &Pattern, content: &[u8]) -> Result<bool, NoMemory>
    ensures { IfOk result (λ b. b ≡ spec.matches pattern.now content.now) }
{
    match std::str::from_utf8(content) {
        Ok(text) => Ok(has_match(alloc, pattern, text)?),
        Err(_) => Ok(false),
    }
}

fn json_contains(alloc: Global, expected: &Val, content: &[u8]) -> Result<bool, NoMemory>
    ensures { IfOk result (λ b. b ≡ spec.reads_as (within.is_within expected.now) (read_content content.now)) }
{
    match document(alloc, content)? {
        Ok(v) => Ok(is_within(expected, &v)),
        Err(_) => Ok(false),
    }
}

fn json_equals(alloc: Global, expected: &Val, content: &[u8]) -> Result<bool, NoMemory>
    ensures { IfOk result (λ b. b ≡ spec.reads_as (order.equals expected.now) (read_content content.now)) }
{
    match document(alloc, content)? {
        Ok(v) => Ok(equals(expected, &v)),
        Err(_) => Ok(false),
    }
}

// Whether the member of a name is there and equals the value.
fn has_member(meta: &Members, key: &str, v: &Val) -> bool
    ensures { result ≡ within.passes_on (order.equals v.now) (find key.now meta.now) }
{
    match meta.find(key) {
        Some(found) => equals(v, found),
        None => false,
    }
}

fn has_metadata(expected: &Members, meta: &Members) -> bool
    ensures { result ≡ spec.has_metadata expected.now meta.now }
{
    for member in expected.as_slice() {
        if !has_member(meta, member.0.as_str(), &member.1) {
            return false;
        }
    }
    true
}
