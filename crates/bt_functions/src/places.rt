//! Elements by the order of their keys.
ghost use Rattle.std.specs.Prelude.{◌≡◌, ◌++◌, IfOk, OnOk, map, slice_get, string_bytes};
ghost use Rattle.std.specs.Option.{option_copied};
ghost use Rattle.std.specs.Cmp.Lexicographic.{slice_cmp};
ghost use Rattle.std.specs.Ordering.{int_cmp, nat_cmp};
ghost use Rattle.bt_lists.specs.Sorts.{sorted};
ghost use Rattle.bt_meaning.specs.Lambdas as spec;

use bt_kinds::moving::into_vec;
use bt_ports::NoMemory;
use bt_ports::text::Text;
use bt_value::{Val, Vals, copy};
use sqlite_items::Items;
use std::alloc::Global;

/// Numbers with places, by number and then by place.
#[tactic(auto, using(crate::proofs::Sorted::numbers_sorted))]
fn numbers_sorted(alloc: Global, keys: &Items<(i64, usize)>) -> Result<Vec<(i64, usize)>, NoMemory>
    ensures { IfOk result (λ v. v.items ≡ sorted (spec.key_cmp int_cmp) keys.now) }
{
    match Vec::from_slice(alloc, keys.as_slice()) {
        Ok(mut all) => {
            all.sort_unstable();
            Ok(all)
        }
        Err(_) => Err(NoMemory),
    }
}

/// The element of a place.
fn element(items: &[Val], place: usize) -> Option<&Val>
    ensures { option_copied result ≡ slice_get items.now place }
{
    items.get(place)
}

/// Puts the element of a place at the end, where there is one.
#[tactic(auto, using(crate::proofs::Placing::one_more, crate::proofs::Placing::none_more))]
fn push_at(alloc: Global, got: &mut Vals, items: &[Val], place: usize) -> Result<(), NoMemory>
    ensures { OnOk result (got.new ≡ got.old ++ spec.alone (slice_get items.now place)) }
{
    match element(items, place) {
        Some(item) => got.push(copy(alloc, item)?)?,
        None => {}
    }
    Ok(())
}

/// The elements at the places of keys that are numbers.
fn at_number_places(alloc: Global, items: &[Val], keys: &[(i64, usize)]) -> Result<Vals, NoMemory>
    ensures { IfOk result (λ xs. xs ≡ spec.at_places items.now keys.now) }
{
    let mut got = Items::new(alloc);
    for key in keys {
        push_at(alloc, &mut got, items, key.1)?;
    }
    Ok(got)
}

/// The elements by rising numbers; those of equal ones keep their order.
pub fn by_numbers(
    alloc: Global,
    items: &[Val],
    keys: &Items<(i64, usize)>,
) -> Result<Vals, NoMemory>
    ensures { IfOk result (λ xs. xs ≡ spec.at_places items.now (sorted (spec.key_cmp int_cmp) keys.now)) }
{
    let all = numbers_sorted(alloc, keys)?;
    at_number_places(alloc, items, all.as_slice())
}

fn into_strings(alloc: Global, keys: Vec<(Text, usize)>) -> Result<Vec<(String, usize)>, NoMemory>
    ensures { IfOk result (λ v. map (λ k. (string_bytes k.0, k.1)) v.items ≡ keys.items) }
{
    let mut got = Vec::new(alloc);
    for key in keys {
        let (text, place) = key;
        got.push((text.into_string(), place))?;
    }
    Ok(got)
}

/// Strings with places, by string and then by place.
#[tactic(auto, using(crate::proofs::Sorted::strings_sorted))]
fn strings_sorted(
    alloc: Global,
    keys: Items<(Text, usize)>,
) -> Result<Vec<(String, usize)>, NoMemory>
    ensures { IfOk result (λ v. map (λ k. (string_bytes k.0, k.1)) v.items ≡ sorted (spec.key_cmp (slice_cmp nat_cmp)) keys) }
{
    let keys = into_vec(alloc, keys)?;
    let mut all = into_strings(alloc, keys)?;
    all.sort_unstable();
    Ok(all)
}

/// The elements at the places of keys that are strings.
fn at_string_places(
    alloc: Global,
    items: &[Val],
    keys: &[(String, usize)],
) -> Result<Vals, NoMemory>
    ensures { IfOk result (λ xs. xs ≡ spec.at_places items.now (map (λ k. (string_bytes k.0, k.1)) keys.now)) }
{
    let mut got = Items::new(alloc);
    for key in keys {
        push_at(alloc, &mut got, items, key.1)?;
    }
    Ok(got)
}

/// The elements by rising strings; those of equal ones keep their order.
pub fn by_strings(
    alloc: Global,
    items: &[Val],
    keys: Items<(Text, usize)>,
) -> Result<Vals, NoMemory>
    ensures { IfOk result (λ xs. xs ≡ spec.at_places items.now (sorted (spec.key_cmp (slice_cmp nat_cmp)) keys)) }
{
    let all = strings_sorted(alloc, keys)?;
    at_string_places(alloc, items, all.as_slice())
}
