//! The printer: the text of a mapping, by the layout of `bt_words`, which is read back as the same
//! mapping.
#![tactic(auto)]

mod leaves;
mod marks;
mod printer;
mod printing;
mod queries;
mod statements;

pub use printing::print;
