//! From a text to its tokens.

ghost use Rattle.std.specs.Prelude.{◌≡◌, ◌≢◌, ◌≤◌, ◌<◌, Bool, List, length, drop, IfOk, IfErr, Result, Ok, Err};
ghost use Rattle.bt_lexer.specs.declared.token.Token.{Token};
ghost use Rattle.bt_lexer.specs.declared.token.LexFault.{LexFault};
ghost use Rattle.bt_lexer.specs.Tokens as tokens;
ghost use Rattle.bt_lexer.specs.Tokens.{Reads, NoGap, NoToken, before};
ghost use Rattle.bt_lexer.specs.Bytes.{begins, is_quote};
ghost use Rattle.bt_lexer.specs.Fronts.{IsNext};
ghost use Rattle.bt_lexer.specs.Lines.{HasTokens, HasFault};
ghost use Rattle.bt_lexer.specs.Spans.{IsFaultWithin};

use crate::bytes::from_place;
use crate::lines::{Behind, keep};
use crate::token::{Kind, LexFault, Token, Tokens};
use crate::words::{gap_len, is_bad, word};
use std::alloc::Global;

fn is_dot(kind: Kind) -> bool
    ensures { result ≡ tokens.is_dot kind }
{
    matches!(kind, Kind::Dot)
}

/// Whether the character at the front begins a text.
fn is_text_fault(s: &[u8]) -> bool
    ensures { result ≡ begins is_quote s.now }
{
    matches!(s, [b'"', ..])
}

/// The fault of a place at which no token begins.
fn no_token_fault(s: &[u8], at: usize) -> LexFault
    requires some { 0 < length s.now }
    requires no_gap { NoGap s.now }
    requires no_token { NoToken s.now }
    ensures { (dot : Bool) → Reads at dot s.now (Err result) }
{
    if is_text_fault(s) {
        LexFault::Text { at }
    } else {
        LexFault::Char { at }
    }
}

/// The token at a place, or the fault.
fn token_at(text: &[u8], at: usize, after_dot: bool) -> Result<Token, LexFault>
    requires within { at < length text.now }
    requires no_gap { NoGap (drop at text.now) }
    ensures token { IfOk result (λ t. IsNext text.now at t) }
    ensures more { IfOk result (λ t. (r : Result (List Token) LexFault) →
        Reads t.to (tokens.is_dot t.kind) (drop t.to text.now) r →
        Reads at after_dot (drop at text.now) (before t r)) }
    ensures fault { IfErr result (λ f. Reads at after_dot (drop at text.now) (Err f)) }
{
    let rest = from_place(text, at);
    let Some((kind, len)) = word(rest) else {
        return Err(no_token_fault(rest, at));
    };
    if is_bad(kind, after_dot, &rest[..len], from_place(rest, len)) {
        return Err(LexFault::Number { at });
    }
    Ok(Token {
        kind,
        from: at,
        to: at + len,
    })
}

/// The tokens of a mapping's text, or its first fault. It reads the text once, from the left.
///
/// `NoMemory` is answered where memory for the tokens can't be had.
pub fn lex(alloc: Global, text: &str) -> Result<Tokens, LexFault>
    ensures tokens { IfOk result (λ ts. HasTokens text.now ts.list) }
    ensures fault { IfErr result (λ f. f ≢ LexFault.NoMemory → HasFault text.now f) }
    ensures place { IfErr result (λ f. IsFaultWithin text.now 0 f) }
{
    let bytes = text.as_bytes();
    let mut found = Tokens::new(alloc);
    let mut behind = Behind::Nothing;
    let (mut at, mut after_dot) = (0, false);
    while at < bytes.len() {
        let gap = gap_len(from_place(bytes, at));
        if gap > 0 {
            at += gap;
            after_dot = false;
        } else {
            let token = token_at(bytes, at, after_dot)?;
            behind = keep(bytes, &mut found, behind, token)?;
            after_dot = is_dot(token.kind);
            at = token.to;
        }
    }
    Ok(found)
}
