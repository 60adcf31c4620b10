//! How many leaves, holds and sources stand in an output or an input.
ghost use Rattle.std.specs.Prelude.{◌≡◌, ◌≤◌, map, min, codes};
ghost use Rattle.bt_value.specs.Keys.{find};
ghost use Rattle.bt_value.specs.declared.val.Val.{out-Val};
ghost use Rattle.bt_schema.specs.Policies.{fields};
ghost use Rattle.bt_walk.specs.Counts as spec;
ghost use Rattle.bt_walk.specs.Walk.{meaning, met};
ghost use Rattle.bt_schema.specs.Table as table;

use crate::members::is_walked;
use bt_schema::{Form, Place, element, form_of, is_hold, member};
use bt_value::{Members, Val, Vals};

/// What is counted.
#[derive(Clone, Copy)]
pub enum What {
    /// An output that writes.
    Leaf,
    /// A `broker` whose batching is on.
    Hold,
    /// A thing that an input reads.
    Source,
}

/// How many stand at and below a value; 257 is told in place of each larger number.
#[cycle(within)]
#[tactic(auto, using(crate::proofs::Same::is_same, crate::proofs::Capped::capped_product))]
pub fn within(what: What, newer: bool, there: Place, v: &Val) -> u64
    ensures { result ≡ min 257 (spec.within what newer there (meaning v.now)) }
{
    let copies = copies(there, v);
    let once = (own_count(what, there, v) + below(what, newer, there, v)).min(257);
    (copies * once).min(257)
}

#[cycle(within)]
fn below(what: What, newer: bool, here: Place, v: &Val) -> u64
    ensures { result ≡ min 257 ((meaning v.now).count what newer here) }
{
    match v {
        Val::Arr(items) => below_list(what, newer, here, items),
        Val::Obj(fields) => below_object(what, newer, here, fields),
        _ => 0,
    }
}

#[cycle(within)]
fn below_list(what: What, newer: bool, here: Place, items: &Vals) -> u64
    ensures { result ≡ min 257 (spec.count_list what newer here (map meaning items.now)) }
{
    match form_of(here) {
        Form::List { .. } => within_items(what, newer, element(here), items),
        _ => 0,
    }
}

#[cycle(within)]
#[tactic(auto, using(bt_value::proofs::Depths::item_depth, bt_value::proofs::Depths::member_depth))]
fn within_items(what: What, newer: bool, here: Place, items: &Vals) -> u64
    ensures { result ≡ min 257 (spec.within_items what newer here (map meaning items.now)) }
{
    let mut total = 0u64;
    for item in items.as_slice() {
        total = (total + within(what, newer, here, item)).min(257);
    }
    total
}

#[cycle(within)]
fn below_object(what: What, newer: bool, here: Place, fields: &Members) -> u64
    ensures { result ≡ min 257 (spec.count_object what newer here (met fields.now)) }
{
    if is_walked(here, fields) {
        within_members(what, newer, here, fields)
    } else {
        0
    }
}

#[cycle(within)]
#[tactic(auto, using(bt_value::proofs::Depths::item_depth, bt_value::proofs::Depths::member_depth))]
fn within_members(what: What, newer: bool, here: Place, fields: &Members) -> u64
    ensures { result ≡ min 257 (spec.within_members what newer here (met fields.now)) }
{
    let mut total = 0u64;
    for field in fields.as_slice() {
        total = (total + within_member(what, newer, here, field.0.as_str(), &field.1)).min(257);
    }
    total
}

#[cycle(within)]
fn within_member(what: What, newer: bool, here: Place, key: &str, v: &Val) -> u64
    ensures { result ≡ min 257 (spec.within_member what newer (table.member newer here key.now) (meaning v.now)) }
{
    match member(newer, here, key) {
        Some(there) => within(what, newer, there, v),
        None => 0,
    }
}

fn own_count(what: What, there: Place, v: &Val) -> u64
    ensures { result ≡ min 257 (spec.own_count what there v.now) }
{
    match (what, there) {
        (What::Leaf, Place::Stdout | Place::FileOutput) => 1,
        (What::Hold, there) => is_hold(there, v) as u64,
        (What::Source, Place::Stdin) => 1,
        (What::Source, Place::Paths) => items_in(v),
        _ => 0,
    }
}

fn items_in(v: &Val) -> u64
    ensures { result ≡ min 257 (spec.items_in (out-Val v.now)) }
{
    match v {
        Val::Arr(items) => items.len().min(257) as u64,
        _ => 0,
    }
}

fn copies(there: Place, v: &Val) -> u64
    ensures count { result ≡ spec.copies there v.now }
    ensures few { (1 ≤ result) × (result ≤ 9) }
{
    match there {
        Place::Retry => copies_in_fields(v),
        _ => 1,
    }
}

fn copies_in_fields(v: &Val) -> u64
    ensures count { result ≡ spec.copies_of (find (codes "max_retries") (fields v.now)) }
    ensures few { (1 ≤ result) × (result ≤ 9) }
{
    match v {
        Val::Obj(fields) => copies_at(fields),
        _ => 1,
    }
}

fn copies_at(fields: &Members) -> u64
    ensures count { result ≡ spec.copies_of (find (codes "max_retries") fields.now) }
    ensures few { (1 ≤ result) × (result ≤ 9) }
{
    match fields.find("max_retries") {
        Some(v) => copies_in(v),
        None => 1,
    }
}

fn copies_in(v: &Val) -> u64
    ensures count { result ≡ spec.copies_in (out-Val v.now) }
    ensures few { (1 ≤ result) × (result ≤ 9) }
{
    match v {
        Val::Int(n) if 1 <= *n && *n <= 8 => *n as u64 + 1,
        _ => 1,
    }
}
