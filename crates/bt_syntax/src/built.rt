//! The form of mapping that is run so far.

ghost use Rattle.std.specs.Prelude.{◌≡◌, ◌≤◌, ℕ, ◌∷◌, ◌++◌, [], List, length, Some, None, option_map, IfOk, IfSome, OnOk};
ghost use Rattle.std.specs.List.{AllByRecursion, list_all};
ghost use Rattle.bt_lexer.specs.Bytes as classes;
ghost use Rattle.bt_lexer.specs.Kinds.{kind_of};
ghost use Rattle.bt_lexer.specs.Lines.{HasTokens};
ghost use Rattle.bt_lexer.specs.Places.{line_of};
ghost use Rattle.bt_lexer.specs.Spans.{AreSpans, IsSpan};
ghost use Rattle.bt_lexer.specs.Strings as strings;
ghost use Rattle.bt_lexer.specs.declared.token.Kind.TheVariants as kinds;
ghost use Rattle.bt_lexer.specs.declared.token.Token.{Token};
ghost use Rattle.bt_syntax.specs.Built as spec;
ghost use Rattle.bt_syntax.specs.Built.{BuiltReading, IsBuilt};
ghost use Rattle.bt_syntax.specs.BuiltTokens as parts;
ghost use Rattle.bt_syntax.specs.Grammar.{ReadsMapping};
ghost use Rattle.bt_syntax.specs.Lexemes.{lexemes};
ghost use Rattle.bt_tree.specs.declared.tree.Mapping.{Mapping};

use bt_lexer::{Kind, Token, Tokens, int_value, piece, place, text_value};
use bt_ports::NoMemory;
use bt_ports::text::Text;
use bt_tree::{Mapping, Query, Stmt, Suffix, Word};
use sqlite_items::{Boxed, Items};
use std::alloc::Global;

/// The mapping that the text is, where it is of the form that is run so far: `root = ` and then a
/// path of names from `this`, `null`, `true`, `false`, a number, or a text in two quotation marks
/// without a backslash.
///
/// Spaces, tabs and carriage returns may stand between the tokens, before and after them; a comment
/// or a line feed, even a soft one, is of another form. The time is linear in the text.
pub fn read_built(alloc: Global, text: &str, tokens: &Tokens) -> Result<Option<Mapping>, NoMemory>
    requires { HasTokens text.now tokens.now.list }
    ensures read { IfOk result (λ found. IfSome found (λ m. BuiltReading text.now m)) }
    ensures built { IfOk result (λ found. IfSome found (λ m. IsBuilt m)) }
    ensures other { IfOk result (λ found.
        found ≡ None → (m : Mapping) → BuiltReading text.now m → ⊥) }
{
    mapping(alloc, text, tokens.as_slice())
}

/// A law: a text is of this form in one way.
/// The call does nothing.
pub fn one_built_reading()
    ensures { (s : List ℕ) (m n : Mapping) → BuiltReading s m → BuiltReading s n → m ≡ n }
{}

/// A law: a text of this form has tokens that the grammar reads as the same mapping.
/// The call does nothing.
pub fn built_is_read()
    ensures { (s : List ℕ) (m : Mapping) → BuiltReading s m → (ts : List Token) × HasTokens s ts × ReadsMapping m (lexemes s ts) }
{}

/// The mapping of this form that the tokens are.
fn mapping(alloc: Global, text: &str, tokens: &[Token]) -> Result<Option<Mapping>, NoMemory>
    requires rise { AreSpans text.now 0 tokens.now }
    requires each { AllByRecursion (IsSpan text.now) tokens.now }
    ensures { IfOk result (λ found. found ≡ parts.mapping_of text.now tokens.now) }
{
    if !has_only_blanks(text.as_bytes(), tokens) {
        return Ok(None);
    }
    match tokens {
        [root, mark, value @ ..] if is_name(text, root, "root") && is_assign(mark.kind) => {
            match query(alloc, text, value)? {
                Some(query) => Ok(Some(assignment(alloc, text, root.from, query)?)),
                None => Ok(None),
            }
        }
        _ => Ok(None),
    }
}

fn is_blank(c: u8) -> bool
    ensures { result ≡ classes.is_blank c }
{
    matches!(c, b' ' | b'\t' | b'\r')
}

fn are_blanks(s: &[u8]) -> bool
    ensures { result ≡ list_all classes.is_blank s.now }
{
    s.iter().all(|c| is_blank(*c))
}

/// Whether nothing but blanks stand between the tokens, before the first and after the last.
fn has_only_blanks(text: &[u8], tokens: &[Token]) -> bool
    requires { AreSpans text.now 0 tokens.now }
    ensures { result ≡ spec.has_only_blanks text.now 0 tokens.now }
{
    let mut at = 0;
    for token in tokens {
        if !are_blanks(&text[at..token.from]) {
            return false;
        }
        at = token.to;
    }
    are_blanks(&text[at..])
}

fn is_name(text: &str, token: &Token, name: &str) -> bool
    requires { IsSpan text.now token.now }
    ensures { result ≡ parts.is_name text.now token.now name.now }
{
    matches!(token.kind, Kind::Name) && piece(text, token) == name
}

fn is_assign(kind: Kind) -> bool
    ensures { result ≡ parts.is_assign kind }
{
    matches!(kind, Kind::Assign)
}

/// Whether the tokens are `.` and a name.
fn is_step(dot: &Token, name: &Token) -> bool
    ensures { result ≡ parts.is_step dot.now name.now }
{
    matches!(dot.kind, Kind::Dot) && matches!(name.kind, Kind::Name)
}

/// `root = query`, with `root` at this place.
fn assignment(alloc: Global, text: &str, at: usize, query: Query) -> Result<Mapping, NoMemory>
    requires { at ≤ length text.now }
    ensures { IfOk result (λ m. m ≡ spec.assignment at (line_of text.now at) query) }
{
    let mut statements = Items::new(alloc);
    let statement = Stmt::Root {
        at,
        line: place(text, at).line,
        path: Items::new(alloc),
        query,
    };
    match statements.push(statement) {
        Ok(()) => Ok(Mapping::Statements(statements)),
        Err(_) => Err(NoMemory),
    }
}

/// The path or the literal that the tokens are.
fn query(alloc: Global, text: &str, tokens: &[Token]) -> Result<Option<Query>, NoMemory>
    requires { AllByRecursion (IsSpan text.now) tokens.now }
    ensures { IfOk result (λ q. q ≡ parts.query_of text.now tokens.now) }
{
    let Some((first, rest)) = tokens.split_first() else {
        return Ok(None);
    };
    if is_name(text, first, "this") {
        path(alloc, text, rest)
    } else if rest.is_empty() {
        literal(alloc, text, first)
    } else {
        Ok(None)
    }
}

/// The path from `this` whose steps the tokens are.
fn path(alloc: Global, text: &str, tokens: &[Token]) -> Result<Option<Query>, NoMemory>
    requires { AllByRecursion (IsSpan text.now) tokens.now }
    ensures { IfOk result (λ q.
        q ≡ option_map parts.from_this (parts.steps_of text.now tokens.now)) }
{
    let Some(steps) = steps(alloc, text, tokens)? else {
        return Ok(None);
    };
    if steps.is_empty() {
        return Ok(Some(Query::This));
    }
    match Boxed::new(alloc, Query::This) {
        Ok(this) => Ok(Some(Query::Item(this, steps))),
        Err(_) => Err(NoMemory),
    }
}

/// The steps that the tokens are.
fn steps(
    alloc: Global,
    text: &str,
    tokens: &[Token],
) -> Result<Option<Items<Suffix<Query>>>, NoMemory>
    requires { AllByRecursion (IsSpan text.now) tokens.now }
    ensures { IfOk result (λ xs. xs ≡ parts.steps_of text.now tokens.now) }
{
    let mut steps = Items::new(alloc);
    let mut rest = tokens;
    while let [dot, name, later @ ..] = rest {
        if !is_step(dot, name) {
            return Ok(None);
        }
        push_step(alloc, &mut steps, piece(text, name))?;
        rest = later;
    }
    if rest.is_empty() {
        Ok(Some(steps))
    } else {
        Ok(None)
    }
}

fn push_step(alloc: Global, steps: &mut Items<Suffix<Query>>, name: &str) -> Result<(), NoMemory>
    ensures { OnOk result (steps.new ≡ steps.old ++ Suffix.Name name.now ∷ []) }
{
    let step = Suffix::Name(Text::make(alloc, name)?);
    match steps.push(step) {
        Ok(()) => Ok(()),
        Err(_) => Err(NoMemory),
    }
}

/// The literal that a token is.
fn literal(alloc: Global, text: &str, token: &Token) -> Result<Option<Query>, NoMemory>
    requires { IsSpan text.now token.now }
    ensures { IfOk result (λ q.
        q ≡ parts.literal_of token.now.kind token.now.from (spec.bytes_of text.now token.now)) }
{
    let word = piece(text, token);
    match token.kind {
        Kind::Name => Ok(constant(word)),
        Kind::Int => Ok(Some(Query::Int(int_value(word) as i64))),
        Kind::Text => simple_text(alloc, word, token.from),
        _ => Ok(None),
    }
}

fn constant(name: &str) -> Option<Query>
    ensures { result ≡ parts.constant_of name.now }
{
    match name {
        "null" => Some(Query::Null),
        "true" => Some(Query::True),
        "false" => Some(Query::False),
        _ => None,
    }
}

/// The query that a text is, where it has two quotation marks and no backslash.
fn simple_text(alloc: Global, word: &str, at: usize) -> Result<Option<Query>, NoMemory>
    requires { kind_of word.now ≡ Some kinds.Text }
    ensures { IfOk result (λ q. q ≡ parts.text_of word.now at) }
{
    if !is_simple(word.as_bytes()) {
        return Ok(None);
    }
    let text = text_value(alloc, word)?;
    Ok(Some(Query::Quoted(Word { at, text })))
}

fn is_plain(c: u8) -> bool
    ensures { result ≡ strings.is_plain c }
{
    !matches!(c, b'\\' | b'"' | b'\n')
}

fn are_plain(s: &[u8]) -> bool
    ensures { result ≡ list_all strings.is_plain s.now }
{
    s.iter().all(|c| is_plain(*c))
}

/// Whether a quotation mark stands at each end, and neither one nor a backslash between them.
fn is_simple(word: &[u8]) -> bool
    ensures { result ≡ parts.is_simple word.now }
{
    let len = word.len();
    len >= 2 && word[0] == b'"' && word[len - 1] == b'"' && are_plain(&word[1..len - 1])
}
