//! From the tokens of a text to its mapping.

ghost use Rattle.std.specs.Prelude.{◌≡◌, Some, None, Err, IfOk, IfErr, length};
ghost use Rattle.bt_lexer.specs.Lines.{HasTokens};
ghost use Rattle.bt_syntax.specs.Brackets.{deep_at};
ghost use Rattle.bt_syntax.specs.Lexemes.{lexemes};
ghost use Rattle.bt_syntax.specs.Places.{IsTooDeep, Refuses};
ghost use Rattle.bt_syntax.specs.Grammar.{ReadsMapping, ReadsCheck};
ghost use Rattle.bt_syntax.specs.Code.{ended};

use crate::brackets::{MAX_OPEN, too_deep};
use crate::cursor::Cursor;
use crate::fault::SyntaxFault;
use crate::grammar::{Grammar, query};
use crate::stop::Stop;
use bt_lexer::{Tokens, spans_rise};
use bt_tree::Mapping;
use std::alloc::Global;

/// What is answered where a reader has ended, with tokens left or none.
fn answer(found: Result<Mapping, Stop>, c: &Cursor<'_>, end: usize) -> Result<Mapping, SyntaxFault>
    requires { found ≡ Err Stop.Deep → ⊥ }
    ensures { result ≡ ended found c.now end }
{
    match found {
        Ok(mapping) => {
            if c.is_empty() {
                Ok(mapping)
            } else {
                Err(SyntaxFault::Syntax { at: c.place(end) })
            }
        }
        Err(Stop::Stuck) => Err(SyntaxFault::Syntax { at: c.place(end) }),
        Err(Stop::Deep) => unreachable!(),
        Err(Stop::NoMemory) => Err(SyntaxFault::NoMemory),
    }
}

/// A cursor before the tokens of a text, or the place of a bracket too deep.
fn opened<'a>(text: &'a str, tokens: &'a Tokens) -> Result<Cursor<'a>, SyntaxFault>
    requires { HasTokens text.now tokens.now.list }
    ensures start { IfOk result (λ c. c ≡ lexemes text.now tokens.now.list) }
    ensures shallow { IfOk result (λ c. deep_at 0 (lexemes text.now tokens.now.list) ≡ None) }
    ensures deep { IfErr result (λ e. IsTooDeep (lexemes text.now tokens.now.list) e) }
{
    spans_rise();
    match too_deep(tokens.as_slice()) {
        Some(at) => Err(SyntaxFault::TooDeep { at }),
        None => Ok(Cursor::new(text, tokens.as_slice())),
    }
}

/// The mapping that the tokens of a text are read as, or why they aren't one. It reads the tokens
/// once for their brackets and once for the rest, and the text once for its lines.
///
/// `tokens` are those that `lex` gave of `text`. A bracket that is the 65th open one is told before
/// all else. `NoMemory` is answered where memory for the tree can't be had.
pub fn parse(alloc: Global, text: &str, tokens: &Tokens) -> Result<Mapping, SyntaxFault>
    requires { HasTokens text.now tokens.now.list }
    ensures read { IfOk result (λ m. ReadsMapping m (lexemes text.now tokens.now.list)) }
    ensures shallow { IfOk result (λ m. deep_at 0 (lexemes text.now tokens.now.list) ≡ None) }
    ensures refused { IfErr result
        (λ e. Refuses ReadsMapping (lexemes text.now tokens.now.list) (length text.now) e) }
{
    let mut c = opened(text, tokens)?;
    let found = Grammar {
        alloc,
        depth: MAX_OPEN,
        query,
    }
    .mapping(&mut c);
    answer(found, &c, text.len())
}

/// The query that the tokens of a text are read as, as a mapping of its own, or why they aren't one.
///
/// It is `parse` for where a query alone may stand: statements are refused.
pub fn parse_check(alloc: Global, text: &str, tokens: &Tokens) -> Result<Mapping, SyntaxFault>
    requires { HasTokens text.now tokens.now.list }
    ensures read { IfOk result (λ m. ReadsCheck m (lexemes text.now tokens.now.list)) }
    ensures shallow { IfOk result (λ m. deep_at 0 (lexemes text.now tokens.now.list) ≡ None) }
    ensures refused { IfErr result
        (λ e. Refuses ReadsCheck (lexemes text.now tokens.now.list) (length text.now) e) }
{
    let mut c = opened(text, tokens)?;
    let found = Grammar {
        alloc,
        depth: MAX_OPEN,
        query,
    }
    .check(&mut c);
    answer(found, &c, text.len())
}
