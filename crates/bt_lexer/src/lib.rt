//! The tokens of a mapping: `lex` gives a text's tokens or its first fault, and `place` turns an
//! offset into a line and a column.
//!
//! A token is the longest text at its place that has a kind. Between tokens stand spaces, tabs,
//! carriage returns, comments from `#` to before the next line feed, and soft line feeds. A line
//! feed is soft, and no token, before the first and after the last token, after another line feed,
//! after an operator and after `( [ { , : = => ->`, and before `) ] } .` and the name `else`.
//!
//! `piece`, `int_value` and `text_value` give the text of a token, and what a number or a text
//! stands for.
#![tactic(auto)]

ghost use Rattle.std.specs.Prelude.{◌≡◌, ◌⊎◌, ℕ, List, [], ◌∷◌, ◌++◌, Some, true, slice_get};
ghost use Rattle.bt_lexer.specs.declared.token.Token.{Token};
ghost use Rattle.bt_lexer.specs.declared.token.LexFault.{LexFault};
ghost use Rattle.bt_lexer.specs.Bytes.{quote};
ghost use Rattle.bt_lexer.specs.Strings.{is_quoted, text_value};
ghost use Rattle.bt_lexer.specs.Spelling.{Spells};
ghost use Rattle.bt_lexer.specs.Lines.{HasTokens, HasFault};
ghost use Rattle.bt_lexer.specs.Spans.{AreSpans, IsSpan, IsFaultWithin};

mod bytes;
mod lines;
mod marks;
pub mod pieces;
pub mod places;
pub mod reading;
mod strings;
pub mod token;
pub mod values;
mod words;

pub use pieces::{int_value, piece};
pub use places::place;
pub use reading::lex;
pub use token::{Kind, LexFault, Place, Token, Tokens};
pub use values::text_value;

/// A law: a text has one list of tokens or one first fault, never both and never neither.
/// The call does nothing.
pub fn one_reading()
    ensures one_list { (s : List ℕ) (ts us : List Token) → HasTokens s ts → HasTokens s us → ts ≡ us }
    ensures one_fault { (s : List ℕ) (f g : LexFault) → HasFault s f → HasFault s g → f ≡ g }
    ensures never_both { (s : List ℕ) (ts : List Token) (f : LexFault) → HasTokens s ts → HasFault s f → ⊥ }
    ensures never_neither { (s : List ℕ) → ((ts : List Token) × HasTokens s ts) ⊎ ((f : LexFault) × HasFault s f) }
{}

/// A law: the tokens of a text are spans of it that rise, of which no longer one has a kind, and a
/// fault is at a byte of it.
/// The call does nothing.
pub fn spans_rise()
    ensures tokens { (s : List ℕ) (ts : List Token) → HasTokens s ts → AreSpans s 0 ts }
    ensures each { (s : List ℕ) (ts : List Token) → HasTokens s ts →
        (i : ℕ) (t : Token) → slice_get ts i ≡ Some t → IsSpan s t }
    ensures fault { (s : List ℕ) (f : LexFault) → HasFault s f → IsFaultWithin s 0 f }
{}

/// A law: a text of the first form is parts between two quotation marks, as JSON spells them, and
/// stands for what they spell; and whatever parts spell is such a text. The call does nothing.
pub fn texts_are_spelled()
    ensures read { (u : List ℕ) → is_quoted u ≡ true →
        (v : List ℕ) × (u ≡ quote ∷ (v ++ quote ∷ [])) × Spells v (text_value u) }
    ensures spelled { (v w : List ℕ) → Spells v w →
        (is_quoted (quote ∷ (v ++ quote ∷ [])) ≡ true) × (text_value (quote ∷ (v ++ quote ∷ [])) ≡ w) }
{}
