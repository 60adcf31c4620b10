//! From a text to its mapping.
ghost use Rattle.std.specs.Prelude.{◌≡◌, IfOk, IfErr};
ghost use Rattle.bt_lexer.specs.Lines.{HasTokens};
ghost use Rattle.bt_syntax.specs.Grammar.{ReadsCheck, ReadsMapping};
ghost use Rattle.bt_mapping_text.specs.Faults.{IsReadAs, IsUnread};
ghost use Rattle.bt_mapping_text.specs.Inside.{fault_at, lexer_fault, parser_fault};

use crate::fault::{FaultKind, TextFault, Unread};
use bt_lexer::{LexFault, Tokens, lex, spans_rise};
use bt_syntax::{SyntaxFault, parse, parse_check};
use bt_tree::Mapping;
use std::alloc::Global;

/// The mapping that the text is read as, or why it is none: its first fault.
pub fn read_mapping(alloc: Global, text: &str) -> Result<Mapping, Unread>
    ensures read { IfOk result (IsReadAs ReadsMapping text.now) }
    ensures unread { IfErr result (IsUnread ReadsMapping text.now) }
{
    let tokens = tokens_of(alloc, text)?;
    mapping_of(alloc, text, &tokens)
}

/// The query that the text is read as, as a mapping of its own, or why it is none: its first fault.
pub fn read_check(alloc: Global, text: &str) -> Result<Mapping, Unread>
    ensures read { IfOk result (IsReadAs ReadsCheck text.now) }
    ensures unread { IfErr result (IsUnread ReadsCheck text.now) }
{
    let tokens = tokens_of(alloc, text)?;
    check_of(alloc, text, &tokens)
}

fn fault(kind: FaultKind, at: usize) -> Unread
    ensures { result ≡ fault_at kind at }
{
    Unread::Fault(TextFault { kind, at })
}

fn lexer_fault(found: LexFault) -> Unread
    ensures { result ≡ lexer_fault found }
{
    match found {
        LexFault::Char { at } => fault(FaultKind::Character, at),
        LexFault::Text { at } => fault(FaultKind::Text, at),
        LexFault::Number { at } => fault(FaultKind::Number, at),
        LexFault::NoMemory => Unread::NoMemory,
    }
}

fn parser_fault(found: SyntaxFault) -> Unread
    ensures { result ≡ parser_fault found }
{
    match found {
        SyntaxFault::Syntax { at } => fault(FaultKind::Syntax, at),
        SyntaxFault::TooDeep { at } => fault(FaultKind::TooDeep, at),
        SyntaxFault::NoMemory => Unread::NoMemory,
    }
}

// The tokens of the text, or its fault, whatever it is to be read as.
fn tokens_of(alloc: Global, text: &str) -> Result<Tokens, Unread>
    ensures tokens { IfOk result (λ ts. HasTokens text.now ts.list) }
    ensures mapping { IfErr result (IsUnread ReadsMapping text.now) }
    ensures check { IfErr result (IsUnread ReadsCheck text.now) }
{
    match lex(alloc, text) {
        Ok(tokens) => Ok(tokens),
        Err(found) => Err(lexer_fault(found)),
    }
}

fn mapping_of(alloc: Global, text: &str, tokens: &Tokens) -> Result<Mapping, Unread>
    requires { HasTokens text.now tokens.now.list }
    ensures read { IfOk result (IsReadAs ReadsMapping text.now) }
    ensures unread { IfErr result (IsUnread ReadsMapping text.now) }
{
    spans_rise();
    match parse(alloc, text, tokens) {
        Ok(mapping) => Ok(mapping),
        Err(found) => Err(parser_fault(found)),
    }
}

fn check_of(alloc: Global, text: &str, tokens: &Tokens) -> Result<Mapping, Unread>
    requires { HasTokens text.now tokens.now.list }
    ensures read { IfOk result (IsReadAs ReadsCheck text.now) }
    ensures unread { IfErr result (IsUnread ReadsCheck text.now) }
{
    spans_rise();
    match parse_check(alloc, text, tokens) {
        Ok(mapping) => Ok(mapping),
        Err(found) => Err(parser_fault(found)),
    }
}
