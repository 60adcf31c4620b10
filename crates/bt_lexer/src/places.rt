//! Lines and columns of a text.

ghost use Rattle.std.specs.Prelude.{◌≡◌, ◌≤◌, length};
ghost use Rattle.bt_lexer.specs.Places.{line_of, column_of};

use crate::token::Place;

/// The line and the column of the byte at `at`, or of the end of the text. It takes no memory.
#[tactic(auto, using(crate::proofs::PlaceLemmas::column_steps))]
pub fn place(text: &str, at: usize) -> Place
    requires { at ≤ length text.now }
    ensures line { result.line ≡ line_of text.now at }
    ensures column { result.column ≡ column_of text.now at }
{
    let mut here = Place { line: 1, column: 1 };
    for c in &text.as_bytes()[..at] {
        if *c == b'\n' {
            here.line += 1;
            here.column = 1;
        } else {
            here.column += 1;
        }
    }
    here
}
