//! The tokens of a text.

ghost use Rattle.bt_lexer.specs.Lines.{HasTokens};
ghost use Rattle.bt_lexer.specs.Spans.{IsSpan};

use bt_lexer::{Kind, Token, Tokens, int_value, piece, spans_rise, text_value};
use std::alloc::{AllocError, Global};

/// What a token stands for, where it is a text or a number.
fn value(alloc: Global, text: &str, token: &Token) -> Result<String, AllocError>
    requires { IsSpan text.now token.now }
{
    let piece = piece(text, token);
    match token.kind {
        Kind::Text => match text_value(alloc, piece) {
            Ok(value) => format!(in alloc; "={:?}", value.as_str()),
            Err(_) => String::from_str(alloc, "=no memory"),
        },
        Kind::Int => format!(in alloc; "={}", int_value(piece)),
        _ => Ok(String::new(alloc)),
    }
}

fn push_token(alloc: Global, out: &mut String, text: &str, token: &Token) -> Result<(), AllocError>
    requires { IsSpan text.now token.now }
{
    let value = value(alloc, text, token)?;
    let shown = format!(in alloc; "{:?}:{:?}{value}", token.kind, piece(text, token))?;
    out.push_str(shown.as_str())
}

/// Each token's kind and bytes, and what it stands for where it is a text or a number.
pub fn tokens_shape(alloc: Global, text: &str, tokens: &Tokens) -> Result<String, AllocError>
    requires { HasTokens text.now tokens.now.list }
{
    spans_rise();
    let mut out = String::new(alloc);
    for i in 0..tokens.len() {
        if let Some(token) = tokens.get(i) {
            if i > 0 {
                out.push_str(" ")?;
            }
            push_token(alloc, &mut out, text, token)?;
        }
    }
    Ok(out)
}
