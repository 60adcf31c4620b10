//! Whether arguments are such as are taken.

ghost use Rattle.std.specs.Prelude.{◌≡◌, ◌↔◌, IsTrue, Some, None, MatchOption, map, length};
ghost use Rattle.std.specs.List.{list_all};
ghost use Rattle.bt_calls.specs.Shapes as shapes;
ghost use Rattle.bt_calls.specs.Table as spec;

use crate::table::{Signature, Slot};
use bt_time::{format_ok, names_each_once};
use bt_tree::{Arg, Query, Word};

/// The literal text that an argument is, and nothing exactly where it is none.
pub fn literal(arg: &Arg<Query>) -> Option<&Word>
    ensures { MatchOption result (spec.text_in (shapes.shape arg.now) ≡ None)
        (λ w. spec.text_in (shapes.shape arg.now) ≡ Some w.now) }
{
    match arg {
        Arg::Query(Query::Quoted(word)) => Some(word),
        _ => None,
    }
}

fn is_scheme(text: &str) -> bool
    ensures { result ≡ spec.is_scheme text.now }
{
    matches!(text, "base64" | "base64url" | "hex")
}

/// Whether a literal text may stand in a place.
fn takes_text(slot: Slot, text: &Word) -> bool
    ensures { result ≡ spec.takes slot (shapes.text text.now) }
{
    match slot {
        Slot::Query | Slot::Map | Slot::Pattern | Slot::Lambda => true,
        Slot::Scheme => is_scheme(text.text.as_str()),
        Slot::Format => format_ok(text.text.as_str()),
        Slot::WholeFormat => names_each_once(text.text.as_str()),
    }
}

/// Whether an argument may stand in a place.
fn takes(slot: Slot, arg: &Arg<Query>) -> bool
    ensures { result ≡ spec.takes slot (shapes.shape arg.now) }
{
    match arg {
        Arg::Query(Query::Quoted(text)) => takes_text(slot, text),
        Arg::Query(_) => matches!(slot, Slot::Query | Slot::Lambda),
        Arg::Lambda(_, _) => matches!(slot, Slot::Lambda),
    }
}

fn at_most(count: usize, most: Option<usize>) -> bool
    ensures { result ≡ spec.at_most count most }
{
    match most {
        Some(most) => count <= most,
        None => true,
    }
}

fn all_take(first: Slot, others: Slot, args: &[Arg<Query>]) -> bool
    ensures { result ≡ spec.all_take first others (map shapes.shape args.now) }
{
    match args {
        [] => true,
        [arg, rest @ ..] => takes(first, arg) && each_takes(others, rest),
    }
}

fn each_takes(slot: Slot, args: &[Arg<Query>]) -> bool
    ensures { result ≡ list_all (spec.takes slot) (map shapes.shape args.now) }
{
    for arg in args {
        if !takes(slot, arg) {
            return false;
        }
    }
    true
}

/// Whether the arguments are such as are taken, in number and kind. It takes no memory.
pub fn fits(signature: Signature, args: &[Arg<Query>]) -> bool
    ensures { result ≡ spec.fits signature (map shapes.shape args.now) }
{
    signature.least <= args.len()
        && at_most(args.len(), signature.most)
        && all_take(signature.first, signature.others, args)
}
