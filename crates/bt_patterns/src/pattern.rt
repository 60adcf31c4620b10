//! A pattern and the text that it was built from.

ghost use Rattle.std.specs.Prelude.{◌≡◌, None, IfOk, IfErr, IfSome, is_some, true};
ghost use Rattle.bt_patterns.specs.Patterns.{pattern_of_text, IsBuiltFrom};

use bt_ports::sequence::Sequence;
use regex::{Error, Regex};
use std::alloc::Global;
use std::marker::Model;

/// A pattern, which contracts see as the text that it was built from.
#[derive(Drop)]
pub struct Pattern {
    regex: Regex,
}

impl Model for Pattern {
    ghost use Rattle.std.specs.Prelude.{List, ℕ};
    ghost use Rattle.regex.specs.Strings.{regex_source};
    ghost use Rattle.bt_patterns.specs.Patterns.{IsBuiltFrom};

    ghost Value = { List ℕ };

    ghost view = { λ p. regex_source p.regex };

    ghost invariant = { λ p. IsBuiltFrom (regex_source p.regex) p.regex };
}

/// Patterns, in the order in which they were built.
pub type Patterns = Sequence<Pattern>;

/// Why a pattern was not built.
#[derive(Clone, Copy, Debug, PartialEq, Eq)]
pub enum PatternRefusal {
    /// The grammar of `regex` doesn't read the text, or it nests too deeply.
    Bad,
    /// Memory ran out, or the pattern's program is larger than `regex` allows.
    NoMemory,
}

impl Pattern {
    /// Builds the pattern of a text.
    pub fn build(alloc: Global, text: &str) -> Result<Pattern, PatternRefusal>
        ensures text { IfOk result (λ p. p ≡ text.now) }
        ensures read { IfOk result (λ p. is_some (pattern_of_text text.now) ≡ true) }
        ensures bad { IfErr result (λ e.
            e ≡ PatternRefusal.Bad → pattern_of_text text.now ≡ None) }
    {
        match Regex::new(alloc, text) {
            Ok(regex) => Ok(Pattern { regex }),
            Err(Error::Syntax(_)) => Err(PatternRefusal::Bad),
            Err(_) => Err(PatternRefusal::NoMemory),
        }
    }

    /// The text that it was built from.
    pub fn text(&self) -> &str
        ensures { result.now ≡ self.now }
    {
        self.regex.as_str()
    }

    /// What searches by it.
    pub fn regex(&self) -> &Regex
        ensures { IsBuiltFrom self.now result.now }
    {
        &self.regex
    }
}

/// The pattern that was built from a text, where there is one.
pub fn found<'a>(patterns: &'a [Pattern], text: &str) -> Option<&'a Regex>
    ensures { IfSome result (λ r. IsBuiltFrom text.now r.now) }
{
    for pattern in patterns {
        if pattern.text() == text {
            return Some(pattern.regex());
        }
    }
    None
}
