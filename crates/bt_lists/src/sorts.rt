//! Lists in rising order.
ghost use Rattle.std.specs.Prelude.{◌≡◌, IfOk, map, string_bytes};
ghost use Rattle.std.specs.Cmp.Lexicographic.{slice_cmp};
ghost use Rattle.std.specs.Ordering.{int_cmp, nat_cmp};
ghost use Rattle.bt_value.specs.declared.val.Val.{Int, Str};
ghost use Rattle.bt_lists.specs.Sorts as spec;

use bt_kinds::kinds::{Kind, kind_of, wrong};
use bt_kinds::moving::into_vec;
use bt_kinds::targets::{array, numbers, strings};
use bt_ports::NoMemory;
use bt_ports::text::Text;
use bt_value::{Out, Val, Vals};
use sqlite_items::Items;
use std::alloc::Global;

#[tactic(auto, using(crate::proofs::Sorted::numbers_sorted))]
fn sorted_numbers(alloc: Global, ns: &Items<i64>) -> Result<Vec<i64>, NoMemory>
    ensures { IfOk result (λ v. v.items ≡ spec.sorted int_cmp ns.now) }
{
    match Vec::from_slice(alloc, ns.as_slice()) {
        Ok(mut all) => {
            all.sort_unstable();
            Ok(all)
        }
        Err(_) => Err(NoMemory),
    }
}

fn number_values(alloc: Global, ns: &[i64]) -> Result<Vals, NoMemory>
    ensures { IfOk result (λ xs. xs ≡ map Int ns.now) }
{
    let mut got = Items::new(alloc);
    for n in ns {
        got.push(Val::Int(*n))?;
    }
    Ok(got)
}

fn into_strings(alloc: Global, ss: Vec<Text>) -> Result<Vec<String>, NoMemory>
    ensures { IfOk result (λ v. map string_bytes v.items ≡ ss.items) }
{
    let mut got = Vec::new(alloc);
    for s in ss {
        if got.push(s.into_string()).is_err() {
            return Err(NoMemory);
        }
    }
    Ok(got)
}

#[tactic(auto, using(crate::proofs::Sorted::strings_sorted))]
fn sorted_strings(alloc: Global, ss: Items<Text>) -> Result<Vec<String>, NoMemory>
    ensures { IfOk result (λ v. map string_bytes v.items ≡ spec.sorted (slice_cmp nat_cmp) ss) }
{
    let texts = into_vec(alloc, ss)?;
    let mut all = into_strings(alloc, texts)?;
    all.sort_unstable();
    Ok(all)
}

fn string_values(alloc: Global, ss: Vec<String>) -> Result<Vals, NoMemory>
    ensures { IfOk result (λ xs. xs ≡ map Str (map string_bytes ss.items)) }
{
    let mut got = Items::new(alloc);
    for s in ss {
        got.push(Val::Str(Text::from_string(s)))?;
    }
    Ok(got)
}

/// Whether the first element is a number, a string or neither.
fn by_numbers(alloc: Global, items: &Vals) -> Result<Out, NoMemory>
    ensures { IfOk result (λ o. o ≡ spec.numbers_sorted items.now) }
{
    match numbers(alloc, items)? {
        Ok(ns) => {
            let all = sorted_numbers(alloc, &ns)?;
            Ok(Out::Value(Val::Arr(number_values(alloc, all.as_slice())?)))
        }
        Err(kind) => wrong(alloc, "sort", kind),
    }
}

fn by_strings(alloc: Global, items: Vals) -> Result<Out, NoMemory>
    ensures { IfOk result (λ o. o ≡ spec.strings_sorted items) }
{
    match strings(alloc, into_vec(alloc, items)?)? {
        Ok(ss) => {
            let all = sorted_strings(alloc, ss)?;
            Ok(Out::Value(Val::Arr(string_values(alloc, all)?)))
        }
        Err(kind) => wrong(alloc, "sort", kind),
    }
}

/// What the first element of a list decides.
#[derive(Clone, Copy, PartialEq, Eq, Debug)]
pub enum Order {
    /// The list is empty.
    Empty,
    /// The first element is a number.
    Numbers,
    /// The first element is a string.
    Strings,
    /// The first element is of another kind.
    Neither(Kind),
}

fn sorting(items: &Vals) -> Order
    ensures { result ≡ spec.sorting_of items.now }
{
    match items.as_slice() {
        [] => Order::Empty,
        [first, ..] => first_sorting(first),
    }
}

#[tactic(auto, unfolding(crate::specs::Sorts::first_sorting, bt_kinds::specs::Kinds::kind_of))]
fn first_sorting(v: &Val) -> Order
    ensures { result ≡ spec.first_sorting v.now }
{
    match v {
        Val::Int(_) => Order::Numbers,
        Val::Str(_) => Order::Strings,
        _ => Order::Neither(kind_of(v)),
    }
}

/// The elements in rising order.
pub fn sort(alloc: Global, target: Val) -> Result<Out, NoMemory>
    ensures { IfOk result (λ o. o ≡ spec.sort target) }
{
    match array(target) {
        Ok(items) => match sorting(&items) {
            Order::Empty => Ok(Out::Value(Val::Arr(Items::new(alloc)))),
            Order::Numbers => by_numbers(alloc, &items),
            Order::Strings => by_strings(alloc, items),
            Order::Neither(kind) => wrong(alloc, "sort", kind),
        },
        Err(kind) => wrong(alloc, "sort", kind),
    }
}
