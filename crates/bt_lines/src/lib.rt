//! What the lines of some bytes are: defined on finished bytes, whatever pieces they are read in.
#![tactic(auto)]

ghost use Rattle.std.specs.Prelude.{◌≡◌, ◌≤◌, ◌++◌, ℕ, List, [], ◌∷◌, length};
ghost use Rattle.bt_ports.specs.declared.parts.Item.{Item};
ghost use Rattle.bt_lines.specs.Lines.{SourceBytes, items, lines};
ghost use Rattle.bt_lines.specs.Pieces.{AreBetween, pieces};

/// The bytes that a line may have before its delimiter.
pub const LONGEST: usize = 65_536;

/// The pieces between delimiters are the only ones that are cut so, from the left and not overlapping: with `aa`, `xaaaay` has
/// the pieces `x`, the empty one and `y`.
pub fn the_only_pieces()
    ensures only { (d bytes : List ℕ) (ps : List (List ℕ)) → 1 ≤ length d → AreBetween d ps bytes → ps ≡ pieces d bytes }
    ensures example { pieces (97 ∷ 97 ∷ []) (120 ∷ 97 ∷ 97 ∷ 97 ∷ 97 ∷ 121 ∷ []) ≡ (120 ∷ []) ∷ [] ∷ (121 ∷ []) ∷ [] }
{}

/// The items that the first m bytes of some sources close are the first ones of those that more bytes close.
pub fn items_grow()
    ensures { (d : List ℕ) (m n : ℕ) (ss : List SourceBytes) → 1 ≤ length d → m ≤ n
        → (later : List Item) × (items d (lines d n ss) ≡ items d (lines d m ss) ++ later) }
{}
