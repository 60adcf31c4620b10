//! Values without bytes.
ghost use Rattle.std.specs.Prelude.{◌≡◌, map};
ghost use Rattle.bt_value.specs.Plain as spec;

use crate::val::{Members, Val, Vals};

/// Whether bytes stand anywhere in the value, so that it has no JSON text. It takes no memory.
#[cycle(has_bytes)]
#[tactic(auto, using(crate::proofs::Depths::item_depth, crate::proofs::Depths::member_depth))]
pub fn has_bytes(v: &Val) -> bool
    ensures { result ≡ spec.has_bytes v.now }
{
    match v {
        Val::Bytes(_) => true,
        Val::Arr(items) => some_has_bytes(items),
        Val::Obj(members) => some_member_has_bytes(members),
        _ => false,
    }
}

#[cycle(has_bytes)]
#[tactic(auto, using(crate::proofs::Depths::item_depth, crate::proofs::Depths::member_depth))]
fn some_has_bytes(items: &Vals) -> bool
    ensures { result ≡ spec.some (map spec.has_bytes items.now) }
{
    for item in items.as_slice() {
        if has_bytes(item) {
            return true;
        }
    }
    false
}

#[cycle(has_bytes)]
#[tactic(auto, using(crate::proofs::Depths::item_depth, crate::proofs::Depths::member_depth))]
fn some_member_has_bytes(members: &Members) -> bool
    ensures { result ≡ spec.some_member (map (λ m. (m.0, spec.has_bytes m.1)) members.now) }
{
    for member in members.as_slice() {
        if has_bytes(&member.1) {
            return true;
        }
    }
    false
}
