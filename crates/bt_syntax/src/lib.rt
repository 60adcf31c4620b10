//! The syntax of mappings: the grammar, by which a list of tokens is read as a tree, and the parser.
//!
//! `parse` gives the mapping that the tokens of a text are read as, or the first token at which no
//! reading is left, or the 65th open bracket.
//!
//! What its contracts mean stands in `specs/`: `Grammar` over the forms of `Rules`, `Lexemes`,
//! `Keywords`, `Brackets` and `Places`. `Reading`, `Readers`, `Code` and `Cursor` are the readers
//! that the code is proved equal to, on the way to the grammar.
#![tactic(auto)]

mod args;
mod brackets;
pub mod built;
mod chains;
mod choices;
mod cursor;
pub mod fault;
mod grammar;
mod heads;
pub mod keywords;
pub mod laws;
mod lexemes;
mod operators;
pub mod parsing;
mod statements;
mod stop;
mod suffixes;
mod targets;

pub use bt_tree::{
    Arg, Branch, Case, Key, MapStmt, Mapping, Member, Query, Stmt, Suffix, Term, Word,
};
pub use built::{built_is_read, one_built_reading, read_built};
pub use fault::SyntaxFault;
pub use keywords::{Keyword, keyword_of};
pub use laws::one_reading;
pub use parsing::{parse, parse_check};
