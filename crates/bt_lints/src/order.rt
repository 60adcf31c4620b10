//! Lints in order.

ghost use Rattle.std.specs.Prelude.{◌≡◌, ◌↔◌};
ghost use Rattle.std.specs.List.{Contains};
ghost use Rattle.std.specs.List.Sorted.{IsStrictlySortedBy};
ghost use Rattle.bt_lints.specs.Order.{by_place};
ghost use Rattle.bt_lints.specs.declared.lint.MapLint.{MapLint};

use crate::lint::MapLints;

/// The lints in order, each once. It takes no memory.
pub fn arranged(found: MapLints) -> MapLints
    ensures in_order { IsStrictlySortedBy by_place result.list }
    ensures same { (x : MapLint) → Contains result.list x ↔ Contains found.list x }
{
    let mut lints = found.into_vec();
    lints.sort_unstable();
    lints.dedup();
    MapLints::from_vec(lints)
}
