//! Findings.

use bt_ports::sequence::Sequence;
use bt_tree::Word;

/// Something in a query that a lint or a pattern may come of.
#[derive(Drop)]
pub enum Finding {
    /// `root`, at its place.
    Root(usize),
    /// A variable.
    Variable(Word),
    /// A name that is no function's, at its place.
    UnknownFunction(usize),
    /// A name that is no method's, at its place.
    UnknownMethod(usize),
    /// Arguments that the call doesn't take, at its name's place.
    WrongArguments(usize),
    /// `apply`, at its place, and the map's name.
    Apply(Word),
    /// A literal pattern.
    Pattern(Word),
}

/// Findings, in order of the text.
pub type Findings = Sequence<Finding>;
