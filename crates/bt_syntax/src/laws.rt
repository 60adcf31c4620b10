//! What the grammar itself satisfies.

ghost use Rattle.std.specs.Prelude.{◌≡◌, ◌⊎◌, List};
ghost use Rattle.bt_tree.specs.declared.tree.Mapping.{Mapping};
ghost use Rattle.bt_syntax.specs.Lexemes.{Lexeme};
ghost use Rattle.bt_syntax.specs.Places.{FirstBad};
ghost use Rattle.bt_syntax.specs.Grammar.{ReadsMapping, ReadsCheck};

/// A law: a list of tokens is read as one mapping, or has one first token at which no reading is
/// left, never both and never neither; so is it with mappings that are a query alone.
/// The call does nothing.
pub fn one_reading()
    ensures one_mapping { (x y : Mapping) (ts : List Lexeme) → ReadsMapping x ts → ReadsMapping y ts → x ≡ y }
    ensures one_check { (x y : Mapping) (ts : List Lexeme) → ReadsCheck x ts → ReadsCheck y ts → x ≡ y }
    ensures one_bad { (ts rest more : List Lexeme) → FirstBad Mapping ReadsMapping ts rest → FirstBad Mapping ReadsMapping ts more → rest ≡ more }
    ensures one_bad_check { (ts rest more : List Lexeme) → FirstBad Mapping ReadsCheck ts rest → FirstBad Mapping ReadsCheck ts more → rest ≡ more }
    ensures never_both { (x : Mapping) (ts rest : List Lexeme) → ReadsMapping x ts → FirstBad Mapping ReadsMapping ts rest → ⊥ }
    ensures never_both_check { (x : Mapping) (ts rest : List Lexeme) → ReadsCheck x ts → FirstBad Mapping ReadsCheck ts rest → ⊥ }
    ensures never_neither { (ts : List Lexeme) → ((x : Mapping) × ReadsMapping x ts) ⊎ ((rest : List Lexeme) × FirstBad Mapping ReadsMapping ts rest) }
    ensures never_neither_check { (ts : List Lexeme) → ((x : Mapping) × ReadsCheck x ts) ⊎ ((rest : List Lexeme) × FirstBad Mapping ReadsCheck ts rest) }
{}
