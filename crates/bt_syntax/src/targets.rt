//! Which queries are targets of an assignment.

ghost use Rattle.std.specs.Prelude.{◌≡◌, true, is_some, Some, IfOk, reverse};
ghost use Rattle.std.specs.List.{list_all};
ghost use Rattle.bt_syntax.specs.Readers as spec;
ghost use Rattle.bt_syntax.specs.Code.{key_in};

use bt_tree::{Key, Query, Suffix};
use sqlite_items::Items;
use std::alloc::{AllocError, Global};

/// Whether a suffix is a key.
fn is_key(suffix: &Suffix<Query>) -> bool
    ensures { result ≡ is_some (key_in suffix.now) }
{
    matches!(suffix, Suffix::Name(_) | Suffix::Quoted(_))
}

/// Whether all suffixes are keys.
fn are_keys(suffixes: &[Suffix<Query>]) -> bool
    ensures { result ≡ list_all (λ x. is_some (key_in x)) suffixes.now }
{
    suffixes.iter().all(|suffix| is_key(suffix))
}

fn is_root(query: &Query) -> bool
    ensures { result ≡ is_some (spec.root_of query.now) }
{
    matches!(query, Query::Root(_))
}

/// Whether a query is `root`, or `root` and keys.
pub fn is_target(query: &Query) -> bool
    ensures { result ≡ is_some (spec.target_of query.now) }
{
    match query {
        Query::Root(_) => true,
        Query::Item(head, suffixes) => is_root(head.get()) && are_keys(suffixes.as_slice()),
        _ => false,
    }
}

/// The key that a suffix is.
fn key_of(suffix: Suffix<Query>) -> Option<Key>
    ensures { result ≡ key_in suffix }
{
    match suffix {
        Suffix::Name(text) => Some(Key::Name(text)),
        Suffix::Quoted(text) => Some(Key::Quoted(text)),
        _ => None,
    }
}

/// The keys that suffixes are, the last first.
fn keys_from_the_end(
    alloc: Global,
    mut suffixes: Items<Suffix<Query>>,
) -> Result<Items<Key>, AllocError>
    requires { is_some (spec.target_keys suffixes) ≡ true }
    ensures { IfOk result (λ keys. spec.target_keys suffixes ≡ Some (reverse keys)) }
{
    let mut keys = Items::new(alloc);
    while let Some(suffix) = suffixes.pop() {
        match key_of(suffix) {
            Some(key) => keys.push(key)?,
            None => unreachable!(),
        }
    }
    Ok(keys)
}

/// The keys in the other order.
fn reversed(alloc: Global, mut keys: Items<Key>) -> Result<Items<Key>, AllocError>
    ensures { IfOk result (λ all. all ≡ reverse keys) }
{
    let mut all = Items::new(alloc);
    while let Some(key) = keys.pop() {
        all.push(key)?;
    }
    Ok(all)
}

/// The place of `root` and the keys behind it.
pub fn target(alloc: Global, query: Query) -> Result<(usize, Items<Key>), AllocError>
    requires { is_some (spec.target_of query) ≡ true }
    ensures { IfOk result (λ x. spec.target_of query ≡ Some x) }
{
    match query {
        Query::Root(at) => Ok((at, Items::new(alloc))),
        Query::Item(head, suffixes) => {
            let keys = keys_from_the_end(alloc, suffixes)?;
            Ok((root_place(head.into_inner()), reversed(alloc, keys)?))
        }
        _ => unreachable!(),
    }
}

/// The place of a `root`.
fn root_place(query: Query) -> usize
    requires { is_some (spec.root_of query) ≡ true }
    ensures { spec.root_of query ≡ Some result }
{
    match query {
        Query::Root(at) => at,
        _ => unreachable!(),
    }
}
