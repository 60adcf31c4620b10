//! Values within others.
ghost use Rattle.std.specs.Prelude.{◌≡◌, map, slice_get};
ghost use Rattle.bt_expectations.specs.Within as spec;
ghost use Rattle.bt_value.specs.Keys.{find};

use bt_value::{Members, Val, Vals, equals};

/// Whether what is expected is within a value: of an object each expected member, within the member of that name; of a list each
/// expected element, within the element at its place; and any other value equals it. It takes no memory.
#[cycle(within)]
pub fn is_within(expected: &Val, v: &Val) -> bool
    ensures { result ≡ spec.is_within expected.now v.now }
{
    match expected {
        Val::Arr(items) => match v {
            Val::Arr(found) => items_within(items, found),
            _ => false,
        },
        Val::Obj(members) => match v {
            Val::Obj(found) => members_within(members, found),
            _ => false,
        },
        _ => equals(expected, v),
    }
}

#[cycle(within)]
#[tactic(auto, using(bt_value::proofs::Depths::item_depth))]
fn items_within(expected: &Vals, found: &Vals) -> bool
    ensures { result ≡ spec.items_within (map spec.is_within expected.now) found.now }
{
    for (i, item) in expected.as_slice().iter().enumerate() {
        if !is_item_within(item, found, i) {
            return false;
        }
    }
    true
}

// Whether an element is at this place, with what is expected within.
#[cycle(within)]
fn is_item_within(expected: &Val, found: &Vals, i: usize) -> bool
    ensures { result ≡ spec.passes_on (spec.is_within expected.now) (slice_get found.now i) }
{
    match found.get(i) {
        Some(v) => is_within(expected, v),
        None => false,
    }
}

#[cycle(within)]
#[tactic(auto, using(bt_value::proofs::Depths::member_depth))]
fn members_within(expected: &Members, found: &Members) -> bool
    ensures { result ≡ spec.members_within (map (λ m. (m.0, spec.is_within m.1)) expected.now) found.now }
{
    for member in expected.as_slice() {
        if !is_member_within(&member.1, found, member.0.as_str()) {
            return false;
        }
    }
    true
}

// Whether the member of this name is there, with what is expected within.
#[cycle(within)]
fn is_member_within(expected: &Val, found: &Members, key: &str) -> bool
    ensures { result ≡ spec.passes_on (spec.is_within expected.now) (find key.now found.now) }
{
    match found.find(key) {
        Some(v) => is_within(expected, v),
        None => false,
    }
}
