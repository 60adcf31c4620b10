//! One case.

use bt_lexer::lex;
use bt_pieces::pieces;
use bt_ports::text::Text;
use bt_print::print;
use bt_syntax::parse;
use std::alloc::{AllocError, Global};

/// A case, by the fields of its line. A field that is missing is empty, and a number that can't be
/// read is 0.
#[derive(Clone, Copy)]
pub struct Case<'a> {
    how: &'a str,
    first: &'a str,
    opening: &'a str,
    middle: &'a str,
    closing: &'a str,
}

// The text with another text in the place of each character of one kind.
fn with(alloc: Global, text: &str, from: char, to: &str) -> Result<String, AllocError> {
    let mut out = String::new(alloc);
    for (i, part) in text.split(from).enumerate() {
        if i > 0 {
            out.push_str(to)?;
        }
        out.push_str(part)?;
    }
    Ok(out)
}

// What is printed for the mapping that a text is read as, and nothing where it isn't read.
fn printed(alloc: Global, text: &str) -> Option<Text> {
    let Ok(tokens) = lex(alloc, text) else {
        return None;
    };
    let Ok(mapping) = parse(alloc, text, &tokens) else {
        return None;
    };
    match print(alloc, &mapping) {
        Ok(printed) => Some(printed),
        Err(_) => None,
    }
}

impl<'a> Case<'a> {
    /// The case that the line has.
    pub fn read(line: &'a str) -> Case<'a> {
        let mut fields = line.split(';');
        Case {
            how: fields.next().unwrap_or(""),
            first: fields.next().unwrap_or(""),
            opening: fields.next().unwrap_or(""),
            middle: fields.next().unwrap_or(""),
            closing: fields.next().unwrap_or(""),
        }
    }

    fn nested_text(&self, alloc: Global) -> Result<String, AllocError> {
        let count = self.first.parse::<u32>().unwrap_or(0);
        let mut text = String::new(alloc);
        for _ in 0..count {
            text.push_str(self.opening)?;
        }
        text.push_str(self.middle)?;
        for _ in 0..count {
            text.push_str(self.closing)?;
        }
        Ok(text)
    }

    fn printing(&self, alloc: Global, text: &str, shown: bool) -> Result<String, AllocError> {
        let Some(once) = printed(alloc, text) else {
            return String::from_str(alloc, "not read");
        };
        let Some(again) = printed(alloc, once.as_str()) else {
            return String::from_str(alloc, "not read back");
        };
        if again.as_str() != once.as_str() {
            return String::from_str(alloc, "printed otherwise");
        }
        if shown {
            with(alloc, once.as_str(), '\n', "~")
        } else {
            String::from_str(alloc, "printed and read back")
        }
    }

    fn cutting(&self, alloc: Global, text: &str) -> Result<String, AllocError> {
        let Ok(spans) = pieces(alloc, text) else {
            return String::from_str(alloc, "no memory");
        };
        let mut out = String::new(alloc);
        for (i, span) in spans.as_slice().iter().enumerate() {
            if i > 0 {
                out.push_str(", ")?;
            }
            let name = if span.query { "query" } else { "literal" };
            let shown = format!(in alloc; "{name} {} to {}", span.from, span.to)?;
            out.push_str(shown.as_str())?;
        }
        Ok(out)
    }

    /// What comes of it.
    pub fn outcome(&self, alloc: Global) -> Result<String, AllocError> {
        if self.how == "nested" {
            let text = self.nested_text(alloc)?;
            return self.printing(alloc, text.as_str(), false);
        }
        let text = with(alloc, self.first, '~', "\n")?;
        if self.how == "pieces" {
            self.cutting(alloc, text.as_str())
        } else {
            self.printing(alloc, text.as_str(), true)
        }
    }
}
