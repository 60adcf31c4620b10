//! How methods take their parts.
ghost use Rattle.std.specs.Prelude.{◌≡◌};
ghost use Rattle.bt_meaning.specs.Forms as spec;

use bt_value::MethodId;

/// A method that evaluates a query on each element of its target.
#[derive(Clone, Copy, PartialEq, Eq, Debug)]
pub enum Each {
    /// `map_each`
    MapEach,
    /// `map_each_key`
    MapEachKey,
    /// `filter`
    Filter,
    /// `any`
    Any,
    /// `all`
    All,
    /// `sort_by`
    SortBy,
}

/// How a method takes its target and arguments.
#[derive(Clone, Copy, PartialEq, Eq, Debug)]
pub enum Form {
    /// `catch`: the argument only where the target failed.
    Catch,
    /// `or`: the argument only where the target failed, is null or is no value.
    Or,
    /// `apply`: a map by its name.
    Apply,
    /// A query on each element.
    Each(Each),
    /// `fold`: a value, and a query on each element with a tally.
    Fold,
    /// Every other method: values alone.
    Plain,
}

/// The name of a method that evaluates a query on each element.
pub fn each_name(each: Each) -> &'static str
    ensures { result.now ≡ spec.each_name each }
{
    match each {
        Each::MapEach => "map_each",
        Each::MapEachKey => "map_each_key",
        Each::Filter => "filter",
        Each::Any => "any",
        Each::All => "all",
        Each::SortBy => "sort_by",
    }
}

/// How this method takes its target and arguments. It takes no memory.
#[tactic(auto, unfolding(crate::specs::Forms::form))]
pub fn form_of(id: MethodId) -> Form
    ensures { result ≡ spec.form id }
{
    match id {
        MethodId::Catch => Form::Catch,
        MethodId::Or => Form::Or,
        MethodId::Apply => Form::Apply,
        MethodId::MapEach => Form::Each(Each::MapEach),
        MethodId::MapEachKey => Form::Each(Each::MapEachKey),
        MethodId::Filter => Form::Each(Each::Filter),
        MethodId::Any => Form::Each(Each::Any),
        MethodId::All => Form::Each(Each::All),
        MethodId::SortBy => Form::Each(Each::SortBy),
        MethodId::Fold => Form::Fold,
        _ => Form::Plain,
    }
}
