//! The kinds of inputs.
ghost use Rattle.std.specs.Prelude.{◌≡◌, ◌≤◌, IfSome, option_map};
ghost use Rattle.bt_value.specs.Depth.{depth, members_depth};
ghost use Rattle.bt_input_plan.specs.Kinds as spec;

use bt_value::{Members, Val};

/// A kind of input.
#[derive(Clone, Copy, Debug, PartialEq, Eq)]
pub enum Kind {
    Batched,
    File,
    ReadUntil,
    Sequence,
    Stdin,
}

fn kind_named(name: &str) -> Option<Kind>
    ensures { result ≡ spec.kind_named name.now }
{
    match name {
        "batched" => Some(Kind::Batched),
        "file" => Some(Kind::File),
        "read_until" => Some(Kind::ReadUntil),
        "sequence" => Some(Kind::Sequence),
        "stdin" => Some(Kind::Stdin),
        _ => None,
    }
}

/// The first member that names a kind, with the kind. Its value nests less deep than the object.
#[tactic(auto, using(bt_value::proofs::Depths::member_depth))]
pub fn chosen(fields: &Members) -> Option<(Kind, &str, &Val)>
    ensures value { option_map (λ c. record { kind = c.0; key = c.1.now; value = c.2.now }) result ≡ spec.chosen fields.now }
    ensures nests { IfSome result (λ c. depth c.2.now ≤ members_depth fields.now) }
{
    for field in fields.as_slice() {
        if let Some(kind) = kind_named(field.0.as_str()) {
            return Some((kind, field.0.as_str(), &field.1));
        }
    }
    None
}
