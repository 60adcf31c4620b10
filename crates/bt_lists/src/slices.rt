//! Parts of texts and lists, and what is in them.
ghost use Rattle.std.specs.Prelude.{◌≡◌, ◌≤◌, IfOk, IsTrue, drop, slice_range};
ghost use Rattle.std.specs.Str.{IsCharBoundary};
ghost use Rattle.std.specs.List.{list_any};
ghost use Rattle.memchr.specs.Find.{matches, first_of};
ghost use Rattle.bt_value.specs.Order as operators;
ghost use Rattle.bt_lists.specs.Slices as spec;
ghost use Rattle.bt_kinds.specs.Targets as targets;

use bt_kinds::kinds::{Kind, failure, kind_of, wrong};
use bt_kinds::limits::count;
use bt_kinds::moving::into_vec;
use bt_kinds::targets::{number, text};
use bt_ports::NoMemory;
use bt_ports::blob::Blob;
use bt_ports::text::Text;
use bt_value::{Out, Val, Vals, equals};
use memchr::memmem;
use sqlite_items::Items;
use std::alloc::Global;

/// A text or a list.
#[derive(Drop)]
pub enum Row {
    /// A string.
    Str(Text),
    /// Bytes.
    Bytes(Blob),
    /// A list.
    Arr(Vals),
}

/// The text or list that a value is, or its kind.
#[tactic(auto, unfolding(crate::specs::Slices::row))]
fn row_of(v: Val) -> Result<Row, Kind>
    ensures { result ≡ spec.row v }
{
    match v {
        Val::Str(s) => Ok(Row::Str(s)),
        Val::Bytes(b) => Ok(Row::Bytes(b)),
        Val::Arr(items) => Ok(Row::Arr(items)),
        other => Err(kind_of(&other)),
    }
}

fn size_of(r: &Row) -> usize
    ensures { result ≡ spec.size_of r.now }
{
    match r {
        Row::Str(s) => s.as_str().len(),
        Row::Bytes(b) => b.as_slice().len(),
        Row::Arr(items) => items.len(),
    }
}

/// Whether the text may be cut at a place.
#[tactic(auto, using(crate::proofs::Boundaries::boundary_is))]
fn is_boundary(s: &str, i: usize) -> bool
    ensures test { result ≡ spec.is_boundary s.now i }
    ensures may { IsTrue result → IsCharBoundary s.now i }
{
    s.is_char_boundary(i)
}

/// The items from a place on.
#[tactic(auto, using(crate::proofs::Dropping::drop_less))]
fn after(alloc: Global, items: Vec<Val>, from: usize) -> Result<Vals, NoMemory>
    ensures { IfOk result (λ xs. xs ≡ drop from items.items) }
{
    let mut got = Items::new(alloc);
    let mut left = from;
    for item in items {
        if left == 0 {
            got.push(item)?;
        } else {
            left -= 1;
        }
    }
    Ok(got)
}

#[tactic(auto, using(crate::proofs::Dropping::dropped))]
fn part_of(alloc: Global, items: Vals, l: usize, h: usize) -> Result<Vals, NoMemory>
    requires { l ≤ h }
    ensures { IfOk result (λ xs. xs ≡ slice_range items l h) }
{
    let mut all = into_vec(alloc, items)?;
    all.truncate(h);
    after(alloc, all, l)
}

#[tactic(auto, unfolding(crate::specs::Slices::cut))]
fn cut(alloc: Global, r: Row, l: usize, h: usize) -> Result<Out, NoMemory>
    requires order { l ≤ h }
    requires within { h ≤ spec.size_of r }
    ensures { IfOk result (λ o. o ≡ spec.cut r l h) }
{
    match r {
        Row::Str(s) => {
            let all = s.as_str();
            if is_boundary(all, l) && is_boundary(all, h) {
                Ok(Out::Value(Val::Str(Text::make(alloc, &all[l..h])?)))
            } else {
                failure(alloc, "slice", "bad text")
            }
        }
        Row::Bytes(b) => {
            let part = Blob::make(alloc, &b.as_slice()[l..h])?;
            Ok(Out::Value(Val::Bytes(part)))
        }
        Row::Arr(items) => Ok(Out::Value(Val::Arr(part_of(alloc, items, l, h)?))),
    }
}

/// A place, where a negative one counts from the end.
fn from_end(n: usize, i: i64) -> Option<usize>
    ensures { result ≡ spec.from_end n i }
{
    let back = i.unsigned_abs() as usize;
    if i < 0 {
        n.checked_sub(back)
    } else {
        Some(back)
    }
}

fn both_ends(alloc: Global, r: Row, l: Option<usize>, h: Option<usize>) -> Result<Out, NoMemory>
    ensures { IfOk result (λ o. o ≡ spec.both_ends r l h) }
{
    match l {
        Some(l) => match h {
            Some(h) => {
                if l <= h && h <= size_of(&r) {
                    cut(alloc, r, l, h)
                } else {
                    failure(alloc, "slice", "out of range")
                }
            }
            None => failure(alloc, "slice", "out of range"),
        },
        None => failure(alloc, "slice", "out of range"),
    }
}

/// The end, where one is given.
fn end_of(h: Option<Val>) -> Result<Option<i64>, Kind>
    ensures { result ≡ spec.end_of h }
{
    match h {
        Some(h) => match number(&h) {
            Ok(n) => Ok(Some(n)),
            Err(kind) => Err(kind),
        },
        None => Ok(None),
    }
}

/// From one place to before another.
pub fn slice(alloc: Global, target: Val, l: Val, h: Option<Val>) -> Result<Out, NoMemory>
    ensures { IfOk result (λ o. o ≡ spec.slice target l h) }
{
    match row_of(target) {
        Ok(r) => match number(&l) {
            Ok(l) => match end_of(h) {
                Ok(h) => {
                    let n = size_of(&r);
                    let from = from_end(n, l);
                    match h {
                        Some(h) => both_ends(alloc, r, from, from_end(n, h)),
                        None => both_ends(alloc, r, from, Some(n)),
                    }
                }
                Err(kind) => wrong(alloc, "slice", kind),
            },
            Err(kind) => wrong(alloc, "slice", kind),
        },
        Err(kind) => wrong(alloc, "slice", kind),
    }
}

/// The first place of a text in another.
#[tactic(auto, using(crate::proofs::Places::found))]
fn first_place(s: &[u8], t: &[u8]) -> Option<usize>
    ensures { result ≡ first_of (matches s.now t.now 0) }
{
    memmem::find(s, t)
}

/// The place in bytes of the first occurrence of a text in another, or -1.
pub fn index_of(alloc: Global, target: Val, a: Val) -> Result<Out, NoMemory>
    ensures { IfOk result (λ o. o ≡ spec.index_of target a) }
{
    match text(target) {
        Ok(s) => match text(a) {
            Ok(t) => match first_place(s.as_slice(), t.as_slice()) {
                Some(at) => Ok(Out::Value(count(at)?)),
                None => Ok(Out::Value(Val::Int(-1))),
            },
            Err(kind) => wrong(alloc, "index_of", kind),
        },
        Err(kind) => wrong(alloc, "index_of", kind),
    }
}

/// Whether an element equals a value.
pub fn has_element(items: &Vals, v: &Val) -> bool
    ensures { result ≡ list_any (λ x. operators.equals x v.now) items.now }
{
    for item in items.as_slice() {
        if equals(item, v) {
            return true;
        }
    }
    false
}

/// Whether a text is in a text.
fn has_text(alloc: Global, s: &[u8], a: Val) -> Result<Out, NoMemory>
    ensures { IfOk result (λ o. o ≡ spec.text_contained s.now a) }
{
    match text(a) {
        Ok(t) => Ok(Out::Value(Val::Bool(first_place(s, t.as_slice()).is_some()))),
        Err(kind) => wrong(alloc, "contains", kind),
    }
}

/// Whether a text or an element is in it.
pub fn contains(alloc: Global, target: Val, a: Val) -> Result<Out, NoMemory>
    ensures { IfOk result (λ o. o ≡ spec.contains target a) }
{
    match row_of(target) {
        Ok(Row::Str(s)) => has_text(alloc, s.as_str().as_bytes(), a),
        Ok(Row::Bytes(b)) => has_text(alloc, b.as_slice(), a),
        Ok(Row::Arr(items)) => Ok(Out::Value(Val::Bool(has_element(&items, &a)))),
        Err(kind) => wrong(alloc, "contains", kind),
    }
}
