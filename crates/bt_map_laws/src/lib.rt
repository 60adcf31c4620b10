//! What the lints of a mapping say of its maps: they nest no deeper than there are maps, so that the
//! bound on their nesting, by which their meaning is defined, has no part in it.
#![tactic(auto)]

ghost use Rattle.std.specs.Prelude.{◌≡◌, ◌≤◌, ℕ, List, length};
ghost use Rattle.bt_value.specs.declared.message.Msg.{Msg};
ghost use Rattle.bt_value.specs.declared.val.Val.{Val};
ghost use Rattle.bt_tree.specs.declared.tree.Mapping.{Mapping};
ghost use Rattle.bt_tree.specs.declared.tree.Query.{Query};
ghost use Rattle.bt_lints.specs.declared.lint.MapLintKind.TheVariants as kind;
ghost use Rattle.bt_lints.specs.declared.lint.Use.{Use};
ghost use Rattle.bt_meaning.specs.Contexts.{Where};
ghost use Rattle.bt_meaning.specs.Mapped.{maps_of, top};
ghost use Rattle.bt_meaning.specs.Maps.{applied, map_of, run_map};
ghost use Rattle.bt_meaning.specs.Value.{value};
ghost use Rattle.bt_meaning.specs.declared.message.Spot.{Spot};
ghost use Rattle.bt_map_laws.specs.Environments.{AgreeFor, Environment, HasRightArguments, inside, with_maps};
ghost use Rattle.bt_map_laws.specs.Nests.{HasNo, IsNest, IsNumbering, map_count};

/// A law: what a query gives depends on no map but those that it applies, where its calls have
/// arguments that they take. The call does nothing.
pub fn queries_depend_on_what_they_apply()
    ensures { (q : Query) (f g : Environment) → HasRightArguments q → AgreeFor q f g → (c : Where)
        → value q (with_maps f c) ≡ value q (with_maps g c) }
{}

/// A law: the maps of a mapping without the lint `map cycle` can be numbered, up to how many there are,
/// so that each applies only maps of lower numbers. The call does nothing.
pub fn maps_are_numbered()
    ensures { (m : Mapping) (how : Use) → HasNo kind.MapCycle m how
        → (number : List ℕ → ℕ) × IsNumbering (maps_of m) number × ((n : List ℕ) → number n ≤ map_count m) }
{}

/// A law: of a mapping without the lint `map cycle` maps that apply one another, each the next, are
/// no more than it has maps. The call does nothing.
pub fn maps_nest_no_deeper()
    ensures { (m : Mapping) (how : Use) → HasNo kind.MapCycle m how → (ns : List (List ℕ)) → IsNest (maps_of m) ns
        → length ns ≤ map_count m }
{}

/// A law: of a mapping without the lints `map cycle` and `wrong arguments`, and with fuel for as many
/// applications as it has maps, what a map gives of a value is what its body gives of it, in which
/// maps have the same fuel again. The call does nothing.
pub fn maps_give_what_bodies_give()
    ensures { (m : Mapping) (how : Use) → HasNo kind.MapCycle m how → HasNo kind.WrongArguments m how → (msg : Msg) (spot : Spot)
        → (fuel : ℕ) → map_count m ≤ fuel → (n : List ℕ) (x : Val) → applied fuel (maps_of m) msg spot n x
        ≡ run_map (map_of n (maps_of m)) (inside (applied fuel (maps_of m) msg spot) msg spot x) }
{}

/// A law: of such a mapping the top, where its queries are evaluated, is the same with any fuel for as
/// many applications as it has maps, or for more. The call does nothing.
pub fn more_fuel_changes_nothing()
    ensures { (m : Mapping) (how : Use) → HasNo kind.MapCycle m how → HasNo kind.WrongArguments m how → (msg : Msg) (spot : Spot)
        → (fuel : ℕ) → map_count m ≤ fuel → with_maps (applied fuel (maps_of m) msg spot) (top m msg spot) ≡ top m msg spot }
{}
