//! Lints.

use bt_ports::sequence::Sequence;

/// What is wrong at a place of a mapping. The kinds are in the order of their numbers.
#[derive(Clone, Copy, Debug, PartialEq, Eq, PartialOrd, Ord)]
pub enum MapLintKind {
    /// A name that is no function's, at the name.
    UnknownFunction,
    /// A name that is no method's, at the name.
    UnknownMethod,
    /// Arguments that the call doesn't take, at its name.
    WrongArguments,
    /// A variable without an earlier `let` of it in the same body, at its `$`.
    UnknownVariable,
    /// The name of no map, at `apply`.
    UnknownMap,
    /// A map that reaches the map in which it is applied, at `apply`.
    MapCycle,
    /// A map with the name of an earlier one, at its `map`.
    DuplicateMap,
    /// `root` in a check.
    RootInCheck,
}

/// A lint, and the place in bytes from the start of the text. Lints are ordered by place, and at one place by kind.
#[derive(Clone, Copy, Debug, PartialEq, Eq, PartialOrd, Ord, Drop)]
pub struct MapLint {
    /// The place.
    pub at: usize,
    /// The kind.
    pub kind: MapLintKind,
}

/// Lints of a mapping.
pub type MapLints = Sequence<MapLint>;

/// What a mapping is used for.
#[derive(Clone, Copy, Debug, PartialEq, Eq)]
pub enum Use {
    /// To map messages.
    Mapping,
    /// As a check, or in an interpolated text: `root` has no meaning there.
    Check,
}
