//! What comes of mappings.

use bt_lexer::{lex, place};
use bt_lints::{MapLint, Use, lint_mapping, told_at};
use bt_literals::{PatternFault, ready};
use bt_patterns::Pattern;
use bt_same::same;
use bt_syntax::{Mapping, parse, parse_check};
use std::alloc::{AllocError, Global};

const NOT_READ: &str = "  not read\n";

const NO_MEMORY: &str = "  no memory\n";

// The mapping of a text, where it is one.
fn mapping(alloc: Global, text: &str) -> Option<Mapping> {
    let Ok(tokens) = lex(alloc, text) else {
        return None;
    };
    parse(alloc, text, &tokens).ok()
}

// The check of a text, where it is one.
fn check(alloc: Global, text: &str) -> Option<Mapping> {
    let Ok(tokens) = lex(alloc, text) else {
        return None;
    };
    parse_check(alloc, text, &tokens).ok()
}

// What is said of a place of a text, on a line.
fn said(alloc: Global, text: &str, at: usize, what: &str) -> Result<String, AllocError> {
    if at > text.len() {
        return String::from_str(alloc, "  past the end\n");
    }
    let here = place(text, at);
    match told_at(alloc, what, &here) {
        Ok(told) => format!(in alloc; "  {}\n", told.as_str()),
        Err(_) => String::from_str(alloc, NO_MEMORY),
    }
}

fn listed(alloc: Global, text: &str, lints: &[MapLint]) -> Result<String, AllocError> {
    if lints.is_empty() {
        return String::from_str(alloc, "  no lint\n");
    }
    let mut out = String::new(alloc);
    for lint in lints {
        let line = said(alloc, text, lint.at, lint.kind.text())?;
        out.push_str(line.as_str())?;
    }
    Ok(out)
}

fn lints_of(alloc: Global, text: &str, m: &Mapping, how: Use) -> Result<String, AllocError> {
    match lint_mapping(alloc, m, how) {
        Ok(lints) => listed(alloc, text, lints.as_slice()),
        Err(_) => String::from_str(alloc, NO_MEMORY),
    }
}

/// The lints of a mapping that is used so.
pub fn linted(alloc: Global, text: &str, how: Use) -> Result<String, AllocError> {
    match mapping(alloc, text) {
        Some(m) => lints_of(alloc, text, &m, how),
        None => String::from_str(alloc, NOT_READ),
    }
}

/// The lints of a check.
pub fn linted_check(alloc: Global, text: &str) -> Result<String, AllocError> {
    match check(alloc, text) {
        Some(m) => lints_of(alloc, text, &m, Use::Check),
        None => String::from_str(alloc, NOT_READ),
    }
}

/// Whether two mappings are the same but for places.
pub fn compared(alloc: Global, first: &str, second: &str) -> Result<String, AllocError> {
    let Some(a) = mapping(alloc, first) else {
        return String::from_str(alloc, NOT_READ);
    };
    let Some(b) = mapping(alloc, second) else {
        return String::from_str(alloc, NOT_READ);
    };
    let told = if same(&a, &b) {
        "  same\n"
    } else {
        "  different\n"
    };
    String::from_str(alloc, told)
}

fn texts(alloc: Global, patterns: &[Pattern]) -> Result<String, AllocError> {
    if patterns.is_empty() {
        return String::from_str(alloc, "  no pattern\n");
    }
    let mut out = String::new(alloc);
    for pattern in patterns {
        let line = format!(in alloc; "  pattern {}\n", pattern.text())?;
        out.push_str(line.as_str())?;
    }
    Ok(out)
}

/// The patterns of a mapping that is made ready, or the one that is refused.
pub fn made_ready(alloc: Global, text: &str) -> Result<String, AllocError> {
    let Some(m) = mapping(alloc, text) else {
        return String::from_str(alloc, NOT_READ);
    };
    match ready(alloc, m) {
        Ok(made) => texts(alloc, made.patterns.as_slice()),
        Err((PatternFault::Bad { at }, _)) => said(alloc, text, at, "pattern"),
        Err((PatternFault::NoMemory, _)) => String::from_str(alloc, NO_MEMORY),
    }
}
