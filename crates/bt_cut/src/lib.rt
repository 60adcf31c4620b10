//! Lists that are cut into pieces, each where it first ends: what a batch is.
#![tactic(auto)]

ghost use Rattle.std.specs.Prelude.{◌≡◌, ◌++◌, Bool, false, List, []};
ghost use Rattle.bt_cut.specs.Cuts.{IsCut, cut, ended, left, rest_after};

/// A list has one cut, which is `cut`, where the test isn't true of the empty piece.
pub fn the_only_cut<T>()
    ensures is { (ends : List T → Bool) (items : List T) → ends [] ≡ false → IsCut ends items (cut ends items) }
    ensures only { (ends : List T → Bool) (items : List T) (pieces : List (List T)) → ends [] ≡ false
        → IsCut ends items pieces → pieces ≡ cut ends items }
    ensures ended { (ends : List T → Bool) (items : List T) → cut ends items ≡ ended ends items ++ left (rest_after ends [] items) }
{}
