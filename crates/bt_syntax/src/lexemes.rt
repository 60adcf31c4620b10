//! What a token of a text says.

ghost use Rattle.std.specs.Prelude.{◌≡◌, IfOk, pos, true, drop, List, ℕ};
ghost use Rattle.bt_lexer.specs.Spans.{IsSpan};
ghost use Rattle.bt_lexer.specs.declared.token.Kind.TheVariants as kinds;
ghost use Rattle.bt_lexer.specs.Kinds.{is_var};
ghost use Rattle.bt_syntax.specs.Lexemes as lexemes;
ghost use Rattle.bt_syntax.specs.Lexemes.{lexeme};
ghost use Rattle.bt_syntax.specs.Grammar as grammar;
ghost use Rattle.bt_syntax.specs.Readers as spec;
ghost use Rattle.bt_syntax.specs.Code.{Makes};

use crate::keywords::{Keyword, keyword_of};
use crate::stop::Stop;
use bt_lexer::{Kind, Token, int_value, piece, text_value};
use bt_ports::NoMemory;
use bt_ports::text::Text;
use bt_tree::{Key, Query, Suffix, Word};
use std::alloc::Global;

/// A variable's name.
fn after_dollar(variable: &str) -> &str
    requires { is_var variable.now ≡ true }
    ensures { result.now ≡ drop 1 variable.now }
{
    &variable[1..]
}

/// What a token says: of a name the name, of a variable its name, of a text what it stands for, and
/// else its own bytes.
pub fn text_of(alloc: Global, text: &str, token: &Token) -> Result<Text, NoMemory>
    requires { IsSpan text.now token.now }
    ensures { IfOk result (λ u. u ≡ (lexeme text.now token.now).text) }
{
    let spelling = piece(text, token);
    match token.kind {
        Kind::Text => text_value(alloc, spelling),
        Kind::Var => Text::make(alloc, after_dollar(spelling)),
        _ => Text::make(alloc, spelling),
    }
}

/// What a token says, and its place.
pub fn word_of(alloc: Global, text: &str, token: &Token) -> Result<Word, NoMemory>
    requires { IsSpan text.now token.now }
    ensures { IfOk result (λ w. w ≡ grammar.word (lexeme text.now token.now)) }
{
    Ok(Word {
        at: token.from,
        text: text_of(alloc, text, token)?,
    })
}

/// The number that a run of digits is.
fn int_of(text: &str, token: &Token) -> i64
    requires span { IsSpan text.now token.now }
    requires int { token.now.kind ≡ kinds.Int }
    ensures { result ≡ pos (lexemes.number (lexeme text.now token.now)) }
{
    int_value(piece(text, token)) as i64
}

/// The reserved name that a token is.
#[tactic(auto, unfolding(crate::specs::Lexemes::reserved))]
pub fn reserved(text: &str, token: &Token) -> Option<Keyword>
    requires { IsSpan text.now token.now }
    ensures { result ≡ lexemes.reserved (lexeme text.now token.now) }
{
    match token.kind {
        Kind::Name => keyword_of(piece(text, token)),
        _ => None,
    }
}

/// Whether a token is that reserved name.
pub fn is_reserved(text: &str, token: &Token, keyword: Keyword) -> bool
    requires { IsSpan text.now token.now }
    ensures { result ≡ spec.is_reserved keyword (lexeme text.now token.now) }
{
    match reserved(text, token) {
        None => false,
        Some(found) => keyword == found,
    }
}

/// Whether a token is a name that isn't reserved.
pub fn is_free(text: &str, token: &Token) -> bool
    requires { IsSpan text.now token.now }
    ensures { result ≡ grammar.is_free (lexeme text.now token.now) }
{
    match (token.kind, reserved(text, token)) {
        (Kind::Name, None) => true,
        _ => false,
    }
}

/// The query that a reserved name alone is.
fn reserved_head(text: &str, token: &Token) -> Option<Query>
    requires { IsSpan text.now token.now }
    ensures { let t = lexeme text.now token.now in result ≡ grammar.reserved_head t (lexemes.reserved t) }
{
    match reserved(text, token) {
        Some(Keyword::Null) => Some(Query::Null),
        Some(Keyword::True) => Some(Query::True),
        Some(Keyword::False) => Some(Query::False),
        Some(Keyword::This) => Some(Query::This),
        Some(Keyword::Root) => Some(Query::Root(token.from)),
        _ => None,
    }
}

/// The head that a token alone is, but a name that isn't reserved.
pub fn head_of(alloc: Global, text: &str, token: &Token) -> Result<Query, Stop>
    requires { IsSpan text.now token.now }
    ensures { Makes (grammar.token_head (lexeme text.now token.now)) result }
{
    match token.kind {
        Kind::Int => Ok(Query::Int(int_of(text, token))),
        Kind::Text => Ok(Query::Quoted(word_of(alloc, text, token)?)),
        Kind::Var => Ok(Query::Var(word_of(alloc, text, token)?)),
        Kind::Name => match reserved_head(text, token) {
            Some(query) => Ok(query),
            None => Err(Stop::Stuck),
        },
        _ => Err(Stop::Stuck),
    }
}

/// The suffix that a token behind a dot is.
pub fn segment_of(alloc: Global, text: &str, token: &Token) -> Result<Suffix<Query>, Stop>
    requires { IsSpan text.now token.now }
    ensures { Makes (grammar.segment_of (lexeme text.now token.now)) result }
{
    match token.kind {
        Kind::Name => Ok(Suffix::Name(text_of(alloc, text, token)?)),
        Kind::Text => Ok(Suffix::Quoted(text_of(alloc, text, token)?)),
        Kind::Int => Ok(Suffix::Int(int_of(text, token))),
        _ => Err(Stop::Stuck),
    }
}

/// The key that a token is.
pub fn key_of(alloc: Global, text: &str, token: &Token) -> Result<Key, Stop>
    requires { IsSpan text.now token.now }
    ensures { Makes (grammar.key_of (lexeme text.now token.now)) result }
{
    match token.kind {
        Kind::Name => Ok(Key::Name(text_of(alloc, text, token)?)),
        Kind::Text => Ok(Key::Quoted(text_of(alloc, text, token)?)),
        _ => Err(Stop::Stuck),
    }
}
