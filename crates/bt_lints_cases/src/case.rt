//! One case.

use crate::outcomes::{compared, linted, linted_check, made_ready};
use bt_lints::Use;
use std::alloc::{AllocError, Global};

/// A case, by the fields of its line. A field that is missing is empty.
#[derive(Clone, Copy)]
pub struct Case<'a> {
    how: &'a str,
    first: &'a str,
    second: &'a str,
}

// The text with a line feed in the place of each tilde.
fn lines(alloc: Global, text: &str) -> Result<String, AllocError> {
    let mut out = String::new(alloc);
    for (i, line) in text.split('~').enumerate() {
        if i > 0 {
            out.push_str("\n")?;
        }
        out.push_str(line)?;
    }
    Ok(out)
}

impl<'a> Case<'a> {
    /// The case that the line has.
    pub fn read(line: &'a str) -> Case<'a> {
        let mut fields = line.split(';');
        Case {
            how: fields.next().unwrap_or(""),
            first: fields.next().unwrap_or(""),
            second: fields.next().unwrap_or(""),
        }
    }

    /// What comes of it, on lines of its own.
    pub fn outcome(&self, alloc: Global) -> Result<String, AllocError> {
        let first = lines(alloc, self.first)?;
        let second = lines(alloc, self.second)?;
        if self.how == "check" {
            linted_check(alloc, first.as_str())
        } else if self.how == "mapping in a check" {
            linted(alloc, first.as_str(), Use::Check)
        } else if self.how == "same" {
            compared(alloc, first.as_str(), second.as_str())
        } else if self.how == "ready" {
            made_ready(alloc, first.as_str())
        } else {
            linted(alloc, first.as_str(), Use::Mapping)
        }
    }
}
