//! One case.

use crate::statements::mapping_shape;
use crate::tokens::tokens_shape;
use bt_lexer::{LexFault, lex, place};
use bt_syntax::{Mapping, SyntaxFault, parse, parse_check};
use std::alloc::{AllocError, Global};

/// A case, by the fields of its line. A field that is missing is empty, and a number that can't be read is 0.
#[derive(Clone, Copy)]
pub struct Case<'a> {
    how: &'a str,
    text: &'a str,
    count: u32,
    piece: &'a str,
    middle: &'a str,
    closing: &'a str,
}

fn push_lines(to: &mut String, text: &str) -> Result<(), AllocError> {
    for (i, line) in text.split('~').enumerate() {
        if i > 0 {
            to.push_str("\n")?;
        }
        to.push_str(line)?;
    }
    Ok(())
}

// A fault and its line and column.
fn at(alloc: Global, fault: &str, text: &str, at: usize) -> Result<String, AllocError> {
    if at > text.len() {
        return String::from_str(alloc, "no place");
    }
    let place = place(text, at);
    format!(in alloc; "{fault} at {}:{}", place.line, place.column)
}

fn lex_fault(alloc: Global, text: &str, fault: LexFault) -> Result<String, AllocError> {
    match fault {
        LexFault::Char { at: place } => at(alloc, "character", text, place),
        LexFault::Text { at: place } => at(alloc, "text", text, place),
        LexFault::Number { at: place } => at(alloc, "number", text, place),
        LexFault::NoMemory => String::from_str(alloc, "no memory"),
    }
}

fn syntax_fault(alloc: Global, text: &str, fault: SyntaxFault) -> Result<String, AllocError> {
    match fault {
        SyntaxFault::Syntax { at: place } => at(alloc, "syntax", text, place),
        SyntaxFault::TooDeep { at: place } => at(alloc, "too deep", text, place),
        SyntaxFault::NoMemory => String::from_str(alloc, "no memory"),
    }
}

impl<'a> Case<'a> {
    /// The case that the line has.
    pub fn read(line: &'a str) -> Case<'a> {
        let mut fields = line.split(';');
        Case {
            how: fields.next().unwrap_or(""),
            text: fields.next().unwrap_or(""),
            count: fields.next().unwrap_or("").parse::<u32>().unwrap_or(0),
            piece: fields.next().unwrap_or(""),
            middle: fields.next().unwrap_or(""),
            closing: fields.next().unwrap_or(""),
        }
    }

    fn whole_text(&self, alloc: Global) -> Result<String, AllocError> {
        let mut text = String::new(alloc);
        push_lines(&mut text, self.text)?;
        for _ in 0..self.count {
            push_lines(&mut text, self.piece)?;
        }
        push_lines(&mut text, self.middle)?;
        for _ in 0..self.count {
            push_lines(&mut text, self.closing)?;
        }
        Ok(text)
    }

    fn shape(&self, alloc: Global, mapping: &Mapping) -> Result<String, AllocError> {
        if self.how == "long" {
            String::from_str(alloc, "read")
        } else {
            mapping_shape(alloc, mapping)
        }
    }

    /// What the text is read as, or its fault.
    pub fn outcome(&self, alloc: Global) -> Result<String, AllocError> {
        let text = self.whole_text(alloc)?;
        let tokens = match lex(alloc, text.as_str()) {
            Ok(tokens) => tokens,
            Err(fault) => return lex_fault(alloc, text.as_str(), fault),
        };
        if self.how == "tokens" {
            return tokens_shape(alloc, text.as_str(), &tokens);
        }
        let found = if self.how == "check" {
            parse_check(alloc, text.as_str(), &tokens)
        } else {
            parse(alloc, text.as_str(), &tokens)
        };
        match found {
            Ok(mapping) => self.shape(alloc, &mapping),
            Err(fault) => syntax_fault(alloc, text.as_str(), fault),
        }
    }
}
