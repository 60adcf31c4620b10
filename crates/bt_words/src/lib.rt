//! The layout of printed mappings, and the law that printed text is read back.
//!
//! `printed` of `specs/Layout` is the text of a mapping: its tokens, as `specs/Printing` lays them
//! out, with spaces and line feeds between them. What `specs/Erasing` defines serves the proof alone.
#![tactic(auto)]

ghost use Rattle.std.specs.Prelude.{◌≡◌, ℕ, List, None};
ghost use Rattle.bt_lexer.specs.declared.token.Token.{Token};
ghost use Rattle.bt_lexer.specs.Lines.{HasTokens};
ghost use Rattle.bt_tree.specs.declared.tree.Mapping.{Mapping};
ghost use Rattle.bt_syntax.specs.Brackets.{deep_at};
ghost use Rattle.bt_syntax.specs.Grammar.{ReadsMapping, ReadsCheck};
ghost use Rattle.bt_syntax.specs.Lexemes.{lexemes};
ghost use Rattle.bt_words.specs.Layout.{printed};
ghost use Rattle.bt_words.specs.PrintedReads.{ReadsAs};

/// A law: the text that is printed for a mapping which the tokens of a text were read as has tokens
/// that are read as the same mapping but for places, and brackets nest no deeper there than 64.
///
/// Its premises are what `lex` and `parse` ensure. A text has one list of tokens, and a list of
/// tokens one mapping, so `lex` and `parse` give these of the printed text, unless memory runs out.
/// The call does nothing.
pub fn printed_is_read()
    ensures mapping { (s : List ℕ) (ts : List Token) (x : Mapping) → HasTokens s ts →
        ReadsMapping x (lexemes s ts) → deep_at 0 (lexemes s ts) ≡ None → ReadsAs x (printed x) }
    ensures check { (s : List ℕ) (ts : List Token) (x : Mapping) → HasTokens s ts →
        ReadsCheck x (lexemes s ts) → deep_at 0 (lexemes s ts) ≡ None → ReadsAs x (printed x) }
{}
