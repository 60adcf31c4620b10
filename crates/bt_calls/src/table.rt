//! The table of arguments.

ghost use Rattle.std.specs.Prelude.{◌≡◌, Some};
ghost use Rattle.bt_calls.specs.Table as spec;

use bt_value::{FunctionId, MethodId};

/// What may stand in the place of an argument.
#[derive(Clone, Copy, Debug, PartialEq, Eq)]
pub enum Slot {
    /// A query.
    Query,
    /// A literal text that names a map.
    Map,
    /// A literal text that is a pattern.
    Pattern,
    /// A literal text that names a scheme: `base64`, `base64url` or `hex`.
    Scheme,
    /// A literal text that is a format of instants.
    Format,
    /// A literal text that is a format with each directive exactly once.
    WholeFormat,
    /// A lambda, or a query in its place.
    Lambda,
}

/// How many arguments are taken, and what they may be.
#[derive(Clone, Copy, Debug, PartialEq, Eq)]
pub struct Signature {
    /// The least number.
    pub least: usize,
    /// The greatest number, where there is one.
    pub most: Option<usize>,
    /// What the first may be.
    pub first: Slot,
    /// What each other may be.
    pub others: Slot,
}

fn none() -> Signature
    ensures { result ≡ spec.none }
{
    queries(0, Some(0))
}

fn one(first: Slot) -> Signature
    ensures { result ≡ spec.one first }
{
    Signature {
        least: 1,
        most: Some(1),
        first,
        others: Slot::Query,
    }
}

fn two(first: Slot, second: Slot) -> Signature
    ensures { result ≡ spec.exactly 2 first second }
{
    Signature {
        least: 2,
        most: Some(2),
        first,
        others: second,
    }
}

fn queries(least: usize, most: Option<usize>) -> Signature
    ensures { result ≡ spec.queries least most }
{
    Signature {
        least,
        most,
        first: Slot::Query,
        others: Slot::Query,
    }
}

/// What a method takes. It takes no memory.
#[tactic(auto, unfolding(crate::specs::Table::method_takes))]
pub fn method_takes(id: MethodId) -> Signature
    ensures { result ≡ spec.method_takes id }
{
    match id {
        MethodId::Catch => one(Slot::Query),
        MethodId::Or => one(Slot::Query),
        MethodId::Apply => one(Slot::Map),
        MethodId::String => none(),
        MethodId::Bytes => none(),
        MethodId::Number => none(),
        MethodId::Bool => none(),
        MethodId::Type => none(),
        MethodId::NotNull => none(),
        MethodId::NotEmpty => none(),
        MethodId::Length => none(),
        MethodId::Exists => one(Slot::Query),
        MethodId::Get => one(Slot::Query),
        MethodId::Uppercase => none(),
        MethodId::Lowercase => none(),
        MethodId::Trim => none(),
        MethodId::TrimPrefix => one(Slot::Query),
        MethodId::TrimSuffix => one(Slot::Query),
        MethodId::HasPrefix => one(Slot::Query),
        MethodId::HasSuffix => one(Slot::Query),
        MethodId::Contains => one(Slot::Query),
        MethodId::IndexOf => one(Slot::Query),
        MethodId::Split => one(Slot::Query),
        MethodId::Join => queries(0, Some(1)),
        MethodId::ReplaceAll => queries(2, Some(2)),
        MethodId::Slice => queries(1, Some(2)),
        MethodId::ParseJson => none(),
        MethodId::Encode => one(Slot::Scheme),
        MethodId::Decode => one(Slot::Scheme),
        MethodId::ReMatch => one(Slot::Pattern),
        MethodId::ReFindAll => one(Slot::Pattern),
        MethodId::ReFindObject => one(Slot::Pattern),
        MethodId::ReReplaceAll => two(Slot::Pattern, Slot::Query),
        MethodId::Abs => none(),
        MethodId::Sum => none(),
        MethodId::Min => none(),
        MethodId::Max => none(),
        MethodId::Keys => none(),
        MethodId::Values => none(),
        MethodId::KeyValues => none(),
        MethodId::Merge => one(Slot::Query),
        MethodId::Assign => one(Slot::Query),
        MethodId::Without => queries(1, None),
        MethodId::MapEach => one(Slot::Lambda),
        MethodId::MapEachKey => one(Slot::Lambda),
        MethodId::Filter => one(Slot::Lambda),
        MethodId::Any => one(Slot::Lambda),
        MethodId::All => one(Slot::Lambda),
        MethodId::Fold => two(Slot::Query, Slot::Lambda),
        MethodId::Sort => none(),
        MethodId::SortBy => one(Slot::Lambda),
        MethodId::Unique => none(),
        MethodId::Flatten => none(),
        MethodId::Append => queries(1, None),
        MethodId::Concat => queries(1, None),
        MethodId::Index => one(Slot::Query),
        MethodId::Enumerated => none(),
        MethodId::TsUnix => none(),
        MethodId::TsUnixMilli => none(),
        MethodId::TsStrftime => one(Slot::Format),
        MethodId::TsStrptime => one(Slot::WholeFormat),
    }
}

/// What a function takes. It takes no memory.
#[tactic(auto, unfolding(crate::specs::Table::function_takes))]
pub fn function_takes(id: FunctionId) -> Signature
    ensures { result ≡ spec.function_takes id }
{
    match id {
        FunctionId::Deleted => none(),
        FunctionId::Nothing => none(),
        FunctionId::Content => none(),
        FunctionId::Error => none(),
        FunctionId::Errored => none(),
        FunctionId::Meta => one(Slot::Query),
        FunctionId::BatchIndex => none(),
        FunctionId::BatchSize => none(),
        FunctionId::Range => queries(2, Some(3)),
        FunctionId::Throw => one(Slot::Query),
        FunctionId::Now => none(),
    }
}
