//! A cursor over the tokens of a text.

ghost use Rattle.std.specs.Prelude.{◌≡◌, ◌==◌, ℕ, List, [], IfOk, IsTrue, ◌↔◌, count_by};
ghost use Rattle.std.specs.Bool.{OnTrue, OnFalse};
ghost use Rattle.bt_lexer.specs.Bytes.{line_feed};
ghost use Rattle.bt_lexer.specs.Spans.{AreSpans};
ghost use Rattle.bt_lexer.specs.declared.token.Kind.TheVariants as kinds;
ghost use Rattle.bt_syntax.specs.Lexemes as lexemes;
ghost use Rattle.bt_syntax.specs.Grammar as grammar;
ghost use Rattle.bt_syntax.specs.Reading.{Got, starts, token};
ghost use Rattle.bt_syntax.specs.Places as places;
ghost use Rattle.bt_syntax.specs.Readers as spec;
ghost use Rattle.bt_syntax.specs.Code.{Reads, Passes, next};

use crate::keywords::Keyword;
use crate::lexemes::{
    head_of, is_free, is_reserved, key_of, reserved, segment_of, text_of, word_of,
};
use crate::operators::{
    comparison_op, prefix_op, product_op, separates_cases, separates_statements, sum_op,
};
use crate::stop::Stop;
use bt_lexer::{Kind, Token};
use bt_ports::NoMemory;
use bt_ports::text::Text;
use bt_tree::{Key, Query, Suffix, Word};
use bt_value::{Op, PrefixOp};
use std::alloc::Global;
use std::marker::Model;

/// The tokens of a text that are left.
///
/// Contracts see them as a list, each with what it says and with its place and line.
#[derive(Drop)]
pub struct Cursor<'a> {
    text: &'a str,
    rest: &'a [Token],
    /// The place up to which line feeds are counted.
    counted: usize,
    /// Its line.
    line: u64,
}

impl<'a> Model for Cursor<'a> {
    ghost use Rattle.bt_syntax.specs.Lexemes.{Lexemes};
    ghost use Rattle.bt_syntax.specs.Cursor.{lexemes_of, IsCounted};

    ghost Value = { Lexemes };

    ghost view = { lexemes_of };

    ghost invariant = { IsCounted };
}

/// How many line feeds there are.
fn line_feeds(bytes: &[u8]) -> u64
    ensures { result ≡ count_by (λ c. c == line_feed) bytes.now }
{
    bytes.iter().filter(|c| **c == b'\n').count() as u64
}

/// Whether a token of that kind is the first.
fn begins_with(tokens: &[Token], kind: Kind) -> bool
    ensures { (s : List ℕ) → result ≡ starts (spec.is kind) (lexemes.lexemes s tokens.now) }
{
    match tokens {
        [] => false,
        [t, ..] => kind == t.kind,
    }
}

impl<'a> Cursor<'a> {
    /// A cursor before the first of the tokens of a text.
    pub fn new(text: &'a str, tokens: &'a [Token]) -> Cursor<'a>
        requires { AreSpans text.now 0 tokens.now }
        ensures { result ≡ lexemes.lexemes text.now tokens.now }
    {
        Cursor {
            text,
            rest: tokens,
            counted: 0,
            line: 1,
        }
    }

    /// Whether no token is left.
    pub fn is_empty(&self) -> bool
        ensures { IsTrue result ↔ (self.now ≡ []) }
    {
        self.rest.is_empty()
    }

    /// The place of the next token, or `end` where there is none.
    pub fn place(&self, end: usize) -> usize
        ensures { result ≡ places.place_of self.now end }
    {
        match self.rest {
            [] => end,
            [t, ..] => t.from,
        }
    }

    /// The place of the next token, or 0 where there is none.
    pub fn at(&self) -> usize
        ensures { result ≡ (next self.now).at }
    {
        match self.rest {
            [] => 0,
            [t, ..] => t.from,
        }
    }

    /// The line of the next token, or 0 where there is none.
    ///
    /// It counts from where it counted last, so all calls together read the text once.
    pub fn line(&mut self) -> u64
        ensures line { result ≡ (next self.old).line }
        ensures same { self.new ≡ self.old }
    {
        match self.rest {
            [] => 0,
            [t, ..] => {
                self.line += line_feeds(&self.text.as_bytes()[self.counted..t.from]);
                self.counted = t.from;
                self.line
            }
        }
    }

    /// Whether a statement comes next that begins as no query does: `let`, `map`, or `meta` without
    /// a parenthesis.
    pub fn begins_statement(&self) -> bool
        ensures { result ≡ spec.begins_statement self.now }
    {
        match self.rest {
            [] => false,
            [t, rest @ ..] => match reserved(self.text, t) {
                Some(Keyword::Let | Keyword::Map) => true,
                Some(Keyword::Meta) => !begins_with(rest, Kind::LeftParen),
                _ => false,
            },
        }
    }

    /// Whether a token of that kind comes next.
    pub fn sees(&self, kind: Kind) -> bool
        ensures { result ≡ starts (spec.is kind) self.now }
    {
        match self.rest {
            [] => false,
            [t, ..] => kind == t.kind,
        }
    }

    /// Whether a token of another kind comes next.
    pub fn sees_other(&self, kind: Kind) -> bool
        ensures { result ≡ starts (spec.is_not kind) self.now }
    {
        match self.rest {
            [] => false,
            [t, ..] => kind != t.kind,
        }
    }

    /// Whether that reserved name comes next.
    pub fn sees_reserved(&self, keyword: Keyword) -> bool
        ensures { result ≡ starts (spec.is_reserved keyword) self.now }
    {
        match self.rest {
            [] => false,
            [t, ..] => is_reserved(self.text, t, keyword),
        }
    }

    /// Whether a name comes next that isn't reserved.
    pub fn sees_free_name(&self) -> bool
        ensures { result ≡ starts grammar.is_free self.now }
    {
        match self.rest {
            [] => false,
            [t, ..] => is_free(self.text, t),
        }
    }

    /// Whether a key comes next.
    pub fn sees_key(&self) -> bool
        ensures { result ≡ starts spec.is_key self.now }
    {
        match self.rest {
            [] => false,
            [t, ..] => matches!(t.kind, Kind::Name | Kind::Text),
        }
    }

    /// Whether an operator before an operand comes next.
    pub fn sees_prefix(&self) -> bool
        ensures { result ≡ starts spec.is_prefix self.now }
    {
        match self.rest {
            [] => false,
            [t, ..] => prefix_op(t.kind).is_some(),
        }
    }

    /// Whether an operator of a product comes next.
    pub fn sees_product(&self) -> bool
        ensures { result ≡ starts spec.is_product self.now }
    {
        match self.rest {
            [] => false,
            [t, ..] => product_op(t.kind).is_some(),
        }
    }

    /// Whether an operator of a sum comes next.
    pub fn sees_sum(&self) -> bool
        ensures { result ≡ starts spec.is_sum self.now }
    {
        match self.rest {
            [] => false,
            [t, ..] => sum_op(t.kind).is_some(),
        }
    }

    /// Whether a comparison comes next.
    pub fn sees_comparison(&self) -> bool
        ensures { result ≡ starts spec.is_comparison self.now }
    {
        match self.rest {
            [] => false,
            [t, ..] => comparison_op(t.kind).is_some(),
        }
    }

    /// Whether what stands between cases comes next.
    pub fn sees_case_end(&self) -> bool
        ensures { result ≡ starts spec.separates_case self.now }
    {
        match self.rest {
            [] => false,
            [t, ..] => separates_cases(t.kind),
        }
    }

    /// Whether what stands between statements comes next.
    pub fn sees_statement_end(&self) -> bool
        ensures { result ≡ starts spec.separates_statement self.now }
    {
        match self.rest {
            [] => false,
            [t, ..] => separates_statements(t.kind),
        }
    }

    /// Takes a token of that kind.
    #[tactic(auto, unfolding(crate::specs::Readers::expect))]
    pub fn expect(&mut self, kind: Kind) -> Result<(), Stop>
        ensures { Passes (spec.expect kind self.old) (next self.old) result self.new }
    {
        match self.rest {
            [t, rest @ ..] if kind == t.kind => {
                self.rest = rest;
                Ok(())
            }
            _ => Err(Stop::Stuck),
        }
    }

    /// Takes a comma, where one comes next.
    #[tactic(auto, unfolding(crate::specs::Readers::expect))]
    pub fn eat_comma(&mut self) -> bool
        ensures found { result ≡ starts (spec.is kinds.Comma) self.old }
        ensures taken { OnTrue result (spec.expect kinds.Comma self.old ≡ Got (next self.old) self.new) }
        ensures left { OnFalse result (self.new ≡ self.old) }
    {
        match self.rest {
            [t, rest @ ..] if Kind::Comma == t.kind => {
                self.rest = rest;
                true
            }
            _ => false,
        }
    }

    /// Takes that reserved name.
    #[tactic(auto, unfolding(crate::specs::Readers::expect_reserved))]
    pub fn expect_reserved(&mut self, keyword: Keyword) -> Result<(), Stop>
        ensures { Passes (spec.expect_reserved keyword self.old) (next self.old) result self.new }
    {
        match self.rest {
            [t, rest @ ..] if is_reserved(self.text, t, keyword) => {
                self.rest = rest;
                Ok(())
            }
            _ => Err(Stop::Stuck),
        }
    }

    /// Takes a token of that kind, and gives what it says.
    #[tactic(auto, unfolding(crate::specs::Readers::expect))]
    pub fn token_text(&mut self, alloc: Global, kind: Kind) -> Result<Text, Stop>
        ensures passed { Passes (spec.expect kind self.old) (next self.old) result self.new }
        ensures text { IfOk result (λ u. u ≡ (next self.old).text) }
    {
        match self.rest {
            [t, rest @ ..] if kind == t.kind => {
                let text = text_of(alloc, self.text, t)?;
                self.rest = rest;
                Ok(text)
            }
            _ => Err(Stop::Stuck),
        }
    }

    /// Takes what stands between cases.
    pub fn expect_case_end(&mut self) -> Result<(), Stop>
        ensures { Passes (spec.passing spec.separates_case self.old) (next self.old) result self.new }
    {
        match self.rest {
            [t, rest @ ..] if separates_cases(t.kind) => {
                self.rest = rest;
                Ok(())
            }
            _ => Err(Stop::Stuck),
        }
    }

    /// Takes what stands between statements.
    pub fn expect_statement_end(&mut self) -> Result<(), Stop>
        ensures { Passes (spec.passing spec.separates_statement self.old) (next self.old) result self.new }
    {
        match self.rest {
            [t, rest @ ..] if separates_statements(t.kind) => {
                self.rest = rest;
                Ok(())
            }
            _ => Err(Stop::Stuck),
        }
    }

    /// Takes that reserved name as a word.
    #[tactic(auto, unfolding(crate::specs::Readers::expect_reserved))]
    pub fn reserved_word(&mut self, alloc: Global, keyword: Keyword) -> Result<Word, Stop>
        ensures passed { Passes (spec.expect_reserved keyword self.old) (next self.old) result self.new }
        ensures word { IfOk result (λ w. w ≡ grammar.word (next self.old)) }
    {
        match self.rest {
            [t, rest @ ..] if is_reserved(self.text, t, keyword) => {
                let word = word_of(alloc, self.text, t)?;
                self.rest = rest;
                Ok(word)
            }
            _ => Err(Stop::Stuck),
        }
    }

    /// Takes a name that isn't reserved.
    pub fn free_name(&mut self, alloc: Global) -> Result<Word, Stop>
        ensures passed { Passes (spec.passing grammar.is_free self.old) (next self.old) result self.new }
        ensures word { IfOk result (λ w. w ≡ grammar.word (next self.old)) }
    {
        match self.rest {
            [t, rest @ ..] if is_free(self.text, t) => {
                let word = word_of(alloc, self.text, t)?;
                self.rest = rest;
                Ok(word)
            }
            _ => Err(Stop::Stuck),
        }
    }

    /// Takes a head that is one token, but a name that isn't reserved.
    pub fn token_head(&mut self, alloc: Global) -> Result<Query, Stop>
        ensures { Reads (token grammar.token_head self.old) result self.new }
    {
        match self.rest {
            [t, rest @ ..] => {
                let head = head_of(alloc, self.text, t)?;
                self.rest = rest;
                Ok(head)
            }
            [] => Err(Stop::Stuck),
        }
    }

    /// Takes a suffix that is one token behind its dot.
    pub fn segment(&mut self, alloc: Global) -> Result<Suffix<Query>, Stop>
        ensures { Reads (token grammar.segment_of self.old) result self.new }
    {
        match self.rest {
            [t, rest @ ..] => {
                let segment = segment_of(alloc, self.text, t)?;
                self.rest = rest;
                Ok(segment)
            }
            [] => Err(Stop::Stuck),
        }
    }

    /// Takes a key.
    #[tactic(auto, unfolding(crate::specs::Readers::key))]
    pub fn key(&mut self, alloc: Global) -> Result<Key, Stop>
        ensures { Reads (spec.key self.old) result self.new }
    {
        match self.rest {
            [t, rest @ ..] => {
                let key = key_of(alloc, self.text, t)?;
                self.rest = rest;
                Ok(key)
            }
            [] => Err(Stop::Stuck),
        }
    }

    /// Takes an operator before an operand.
    pub fn prefix_op(&mut self) -> Result<PrefixOp, Stop>
        ensures { Reads (token (λ t. grammar.prefix_op t.kind) self.old) result self.new }
    {
        match self.rest {
            [t, rest @ ..] => {
                let op = prefix_op(t.kind).ok_or(Stop::Stuck)?;
                self.rest = rest;
                Ok(op)
            }
            [] => Err(Stop::Stuck),
        }
    }

    /// Takes an operator of a product.
    pub fn product_op(&mut self) -> Result<Op, Stop>
        ensures { Reads (token (λ t. grammar.product_op t.kind) self.old) result self.new }
    {
        match self.rest {
            [t, rest @ ..] => {
                let op = product_op(t.kind).ok_or(Stop::Stuck)?;
                self.rest = rest;
                Ok(op)
            }
            [] => Err(Stop::Stuck),
        }
    }

    /// Takes an operator of a sum.
    pub fn sum_op(&mut self) -> Result<Op, Stop>
        ensures { Reads (token (λ t. grammar.sum_op t.kind) self.old) result self.new }
    {
        match self.rest {
            [t, rest @ ..] => {
                let op = sum_op(t.kind).ok_or(Stop::Stuck)?;
                self.rest = rest;
                Ok(op)
            }
            [] => Err(Stop::Stuck),
        }
    }

    /// Takes a comparison.
    pub fn comparison_op(&mut self) -> Result<Op, Stop>
        ensures { Reads (token (λ t. grammar.comparison_op t.kind) self.old) result self.new }
    {
        match self.rest {
            [t, rest @ ..] => {
                let op = comparison_op(t.kind).ok_or(Stop::Stuck)?;
                self.rest = rest;
                Ok(op)
            }
            [] => Err(Stop::Stuck),
        }
    }
}
