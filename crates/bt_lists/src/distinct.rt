//! Lists without the later ones of equal elements.
ghost use Rattle.std.specs.Prelude.{◌≡◌, ◌≤◌, [], false, nat_lt, IfOk};
ghost use Rattle.std.proofs.Common.{refl};
ghost use Rattle.std.specs.Ordering.{on, eq_by_cmp, as_partial_cmp};
ghost use Rattle.std.specs.Cmp.{on_total, eq_by_cmp_equiv, partial_equiv_from_equiv, partial_order_from_total};
ghost use Rattle.bt_value.specs.Depth.{depth, items_depth};
ghost use Rattle.bt_value.specs.Order.{compare as order};
ghost use Rattle.bt_value.proofs.Ordered.{compare-total};
ghost use Rattle.bt_lists.specs.Distinct as spec;

use bt_kinds::kinds::{failure, kind_of, wrong};
use bt_kinds::moving::into_vec;
use bt_ports::NoMemory;
use bt_value::{Out, Val, Vals, compare, deeper};
use sqlite_items::Items;
use std::alloc::Global;
use std::cmp::Ordering;
use std::collections::BTreeSet;

/// A value in the order of values.
#[derive(Clone, Copy)]
struct Ranked<'a> {
    value: &'a Val,
    ghost shallow: { depth value.now ≤ 127 },
}

impl PartialEq for Ranked<'_> {
    ghost eq = { eq_by_cmp (on (λ r. r.value.now) order) };

    ghost laws = { partial_equiv_from_equiv (eq_by_cmp_equiv (on_total (λ r. r.value.now) compare-total)) };

    fn eq(&self, other: &Self) -> bool {
        compare(self.value, other.value) == Ordering::Equal
    }
}

impl Eq for Ranked<'_> {
    ghost laws = { eq_by_cmp_equiv (on_total (λ r. r.value.now) compare-total) };
}

impl PartialOrd for Ranked<'_> {
    ghost partial_cmp = { as_partial_cmp (on (λ r. r.value.now) order) };

    ghost laws = { partial_order_from_total (on_total (λ r. r.value.now) compare-total) };

    fn partial_cmp(&self, other: &Self) -> Option<Ordering> {
        Some(self.cmp(other))
    }
}

impl Ord for Ranked<'_> {
    ghost cmp = { on (λ r. r.value.now) order };

    ghost total = { on_total (λ r. r.value.now) compare-total };

    ghost matches_partial_cmp = { λ x y. refl };

    ghost matches_eq = { λ x y. refl };

    fn cmp(&self, other: &Self) -> Ordering {
        compare(self.value, other.value)
    }
}

/// Which items equal none before them. Its time grows as that of a sort.
#[tactic(auto, using(bt_value::proofs::Depths::item_depth))]
fn firsts(alloc: Global, items: &[Val]) -> Result<Vec<bool>, NoMemory>
    requires { items_depth items.now ≤ 127 }
    ensures { IfOk result (λ marks. marks.items ≡ spec.firsts_behind [] items.now) }
{
    let mut seen = BTreeSet::new(alloc);
    let mut marks = Vec::new(alloc);
    for item in items {
        let is_new = seen.insert(Ranked { value: item })?;
        marks.push(is_new)?;
    }
    Ok(marks)
}

/// The items that are marked.
#[tactic(auto, using(crate::proofs::Firsts::marked_none))]
fn marked(alloc: Global, items: Vec<Val>, marks: &[bool]) -> Result<Vals, NoMemory>
    ensures { IfOk result (λ xs. xs ≡ spec.marked items.items marks.now) }
{
    let mut got = Items::new(alloc);
    let mut left = marks;
    for item in items {
        match left {
            [] => {}
            [mark, rest @ ..] => {
                if *mark {
                    got.push(item)?;
                }
                left = rest;
            }
        }
    }
    Ok(got)
}

#[tactic(auto, using(crate::proofs::Firsts::firsts_are))]
fn distinct(alloc: Global, items: Vec<Val>) -> Result<Vals, NoMemory>
    requires { items_depth items.items ≤ 127 }
    ensures { IfOk result (λ xs. xs ≡ spec.distinct items.items) }
{
    let marks = firsts(alloc, items.as_slice())?;
    marked(alloc, items, marks.as_slice())
}

/// A list's elements without the later ones of equal ones, or the failure of one that is too deep.
fn unless_deep(alloc: Global, deep: bool, items: Vals) -> Result<Out, NoMemory>
    requires { deep ≡ false → items_depth items ≤ 127 }
    ensures { IfOk result (λ o. o ≡ spec.unless_deep deep items) }
{
    if deep {
        failure(alloc, "unique", "too deep")
    } else {
        let items = into_vec(alloc, items)?;
        Ok(Out::Value(Val::Arr(distinct(alloc, items)?)))
    }
}

#[tactic(auto, using(crate::proofs::Nested::list_depth), unfolding(bt_kinds::specs::Targets::array))]
fn of_depth(alloc: Global, deep: bool, target: Val) -> Result<Out, NoMemory>
    requires { deep ≡ nat_lt 127 (depth target) }
    ensures { IfOk result (λ o. o ≡ spec.unique target) }
{
    match target {
        Val::Arr(items) => unless_deep(alloc, deep, items),
        other => wrong(alloc, "unique", kind_of(&other)),
    }
}

/// The list without the later ones of equal elements, in their order. Its time grows as that of a sort.
pub fn unique(alloc: Global, target: Val) -> Result<Out, NoMemory>
    ensures { IfOk result (λ o. o ≡ spec.unique target) }
{
    let deep = deeper(&target, 127);
    of_depth(alloc, deep, target)
}
