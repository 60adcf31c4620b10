//! The tree of a mapping, and when two trees are the same but for places.
//!
//! There is one variant for each alternative of the grammar. Parentheses are kept, chains of
//! operators are flat, and names stand as they were written, with their places.
#![tactic(auto)]

pub mod tree;

pub use tree::{Arg, Branch, Case, Key, MapStmt, Mapping, Member, Query, Stmt, Suffix, Term, Word};
