//! How deep brackets nest.

ghost use Rattle.std.specs.Prelude.{◌≡◌, ℕ, List};
ghost use Rattle.bt_syntax.specs.Brackets as brackets;
ghost use Rattle.bt_syntax.specs.Brackets.{deep_at};
ghost use Rattle.bt_syntax.specs.Lexemes.{lexemes};

use bt_lexer::{Kind, Token};

/// How many brackets may be open.
pub const MAX_OPEN: usize = 64;

fn opens(kind: Kind) -> bool
    ensures { result ≡ brackets.opens kind }
{
    matches!(kind, Kind::LeftParen | Kind::LeftBracket | Kind::LeftBrace)
}

fn closes(kind: Kind) -> bool
    ensures { result ≡ brackets.closes kind }
{
    matches!(
        kind,
        Kind::RightParen | Kind::RightBracket | Kind::RightBrace
    )
}

/// The place of the first bracket that would be one too many open.
pub fn too_deep(tokens: &[Token]) -> Option<usize>
    ensures { (s : List ℕ) → result ≡ deep_at 0 (lexemes s tokens.now) }
{
    let mut open = 0;
    for token in tokens {
        if opens(token.kind) {
            if open == MAX_OPEN {
                return Some(token.from);
            }
            open += 1;
        } else if closes(token.kind) && open > 0 {
            open -= 1;
        }
    }
    None
}
