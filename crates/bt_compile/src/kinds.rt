//! The kinds of processors.
ghost use Rattle.std.specs.Prelude.{◌≡◌, ◌≤◌, IfSome, option_map};
ghost use Rattle.bt_value.specs.Depth.{depth, members_depth};
ghost use Rattle.bt_compile.specs.Kinds as spec;

use bt_value::{Members, Val};

/// A kind of processor.
#[derive(Clone, Copy, Debug, PartialEq, Eq)]
pub enum Kind {
    Archive,
    Branch,
    Catch,
    ForEach,
    GroupBy,
    GroupByValue,
    Mapping,
    Split,
    Switch,
    Try,
    Unarchive,
}

fn kind_named(name: &str) -> Option<Kind>
    ensures { result ≡ spec.kind_named name.now }
{
    match name {
        "archive" => Some(Kind::Archive),
        "bloblang" => Some(Kind::Mapping),
        "branch" => Some(Kind::Branch),
        "catch" => Some(Kind::Catch),
        "for_each" => Some(Kind::ForEach),
        "group_by" => Some(Kind::GroupBy),
        "group_by_value" => Some(Kind::GroupByValue),
        "mapping" => Some(Kind::Mapping),
        "split" => Some(Kind::Split),
        "switch" => Some(Kind::Switch),
        "try" => Some(Kind::Try),
        "unarchive" => Some(Kind::Unarchive),
        _ => None,
    }
}

/// The first member that names a kind, with the kind. Its value nests less deep than the object.
#[tactic(auto, using(bt_value::proofs::Depths::member_depth))]
pub fn chosen(fields: &Members) -> Option<(Kind, &str, &Val)>
    ensures value { option_map (λ c. record { kind = c.0; key = c.1.now; value = c.2.now }) result ≡ spec.chosen fields.now }
    ensures nests { IfSome result (λ c. depth c.2.now ≤ members_depth fields.now) }
{
    for field in fields.as_slice() {
        if let Some(kind) = kind_named(field.0.as_str()) {
            return Some((kind, field.0.as_str(), &field.1));
        }
    }
    None
}
