//! Which line feeds are tokens.

ghost use Rattle.std.specs.Prelude.{◌≡◌, ◌≤◌, ◌∷◌, ◌++◌, [], ℕ, List, length, slice_range, codes, true, false, IfOk, IfErr, OnOk};
ghost use Rattle.bt_lexer.specs.declared.token.Token.{Token};
ghost use Rattle.bt_lexer.specs.Kinds.{same_text};
ghost use Rattle.bt_lexer.specs.Lines as lines;
ghost use Rattle.bt_lexer.specs.Collected.{completed};

use crate::token::{Kind, LexFault, Token, Tokens};

/// What was read last, blanks and comments aside.
#[derive(Clone, Copy)]
pub enum Behind {
    /// Nothing.
    Nothing,
    /// A token of this kind, or a soft line feed.
    Read(Kind),
    /// A line feed that is soft only if the next token makes it so, and perhaps soft ones after it.
    Pending(Token),
}

fn is_line_feed(kind: Kind) -> bool
    ensures { result ≡ lines.is_line_feed kind }
{
    matches!(kind, Kind::Nl)
}

/// Whether a line feed after it is soft.
fn is_open_ended(kind: Kind) -> bool
    ensures { result ≡ lines.is_open_ended kind }
{
    matches!(
        kind,
        Kind::LeftParen
            | Kind::LeftBracket
            | Kind::LeftBrace
            | Kind::Comma
            | Kind::Colon
            | Kind::Assign
            | Kind::FatArrow
            | Kind::Arrow
            | Kind::Plus
            | Kind::Minus
            | Kind::Star
            | Kind::Slash
            | Kind::Percent
            | Kind::Equal
            | Kind::NotEqual
            | Kind::Less
            | Kind::LessEqual
            | Kind::Greater
            | Kind::GreaterEqual
            | Kind::And
            | Kind::Or
            | Kind::Pipe
            | Kind::Bang
    )
}

/// Whether a line feed before it is soft.
fn is_closing(kind: Kind) -> bool
    ensures { result ≡ lines.is_closing kind }
{
    matches!(
        kind,
        Kind::RightParen | Kind::RightBracket | Kind::RightBrace | Kind::Dot
    )
}

fn is_name(kind: Kind) -> bool
    ensures { result ≡ lines.is_name_kind kind }
{
    matches!(kind, Kind::Name)
}

fn is_else_text(bytes: &[u8]) -> bool
    ensures { result ≡ same_text bytes.now (codes "else") }
{
    matches!(bytes, [b'e', b'l', b's', b'e'])
}

fn is_else(text: &[u8], token: &Token) -> bool
    requires order { token.now.from ≤ token.now.to }
    requires within { token.now.to ≤ length text.now }
    ensures { result ≡ lines.is_else text.now token.now }
{
    is_name(token.kind) && is_else_text(&text[token.from..token.to])
}

fn push(found: &mut Tokens, token: Token) -> Result<(), LexFault>
    ensures ok { OnOk result (found.new.list ≡ found.old.list ++ token ∷ []) }
    ensures err { IfErr result (λ e. e ≡ LexFault.NoMemory) }
{
    match found.push(token) {
        Ok(()) => Ok(()),
        Err(_) => Err(LexFault::NoMemory),
    }
}

/// What stands behind once a line feed was read.
fn after_line(behind: Behind, line: Token) -> Behind
    requires { lines.is_line_feed line.kind ≡ true }
    ensures { (s : List ℕ) (found us : List Token) →
        completed s found result us ≡ completed s found behind (line ∷ us) }
{
    match behind {
        Behind::Nothing => Behind::Read(Kind::Nl),
        Behind::Read(kind) if is_line_feed(kind) || is_open_ended(kind) => Behind::Read(Kind::Nl),
        Behind::Read(_) => Behind::Pending(line),
        Behind::Pending(first) => Behind::Pending(first),
    }
}

/// Adds the line feed that stands before a token, where it isn't soft.
fn settle(text: &[u8], found: &mut Tokens, behind: Behind, token: &Token) -> Result<(), LexFault>
    requires order { token.now.from ≤ token.now.to }
    requires within { token.now.to ≤ length text.now }
    requires no_line { lines.is_line_feed token.now.kind ≡ false }
    ensures ok { OnOk result ((us : List Token) →
        found.new.list ++ token.now ∷ lines.hardened text.now (Some token.now.kind) us
        ≡ completed text.now found.old.list behind (token.now ∷ us)) }
    ensures err { IfErr result (λ e. e ≡ LexFault.NoMemory) }
{
    let Behind::Pending(line) = behind else {
        return Ok(());
    };
    if is_closing(token.kind) || is_else(text, token) {
        return Ok(());
    }
    push(found, line)
}

/// Adds a token, and says what stands behind then.
pub fn keep(
    text: &[u8],
    found: &mut Tokens,
    behind: Behind,
    token: Token,
) -> Result<Behind, LexFault>
    requires order { token.from ≤ token.to }
    requires within { token.to ≤ length text.now }
    ensures ok { IfOk result (λ b. (us : List Token) →
        completed text.now found.new.list b us
        ≡ completed text.now found.old.list behind (token ∷ us)) }
    ensures err { IfErr result (λ e. e ≡ LexFault.NoMemory) }
{
    if is_line_feed(token.kind) {
        return Ok(after_line(behind, token));
    }
    settle(text, found, behind, &token)?;
    push(found, token)?;
    Ok(Behind::Read(token.kind))
}
