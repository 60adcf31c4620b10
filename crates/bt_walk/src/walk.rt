//! The walk.
ghost use Rattle.std.specs.Prelude.{◌≡◌, ◌++◌, ◌∷◌, [], IfOk, OnOk, map};
ghost use Rattle.bt_schema.specs.Pointer as pointer;
ghost use Rattle.bt_schema.specs.Table as table;
ghost use Rattle.bt_walk.specs.Found as found;
ghost use Rattle.bt_walk.specs.Walk as spec;

use crate::above::Above;
use crate::context::{entered, inside, top};
use crate::findings::Findings;
use crate::members::is_walked;
use crate::own::{push_above, push_own};
use bt_ports::NoMemory;
use bt_schema::{Form, LintKind, Place, element, form_of, member, nth, under};
use bt_value::{Members, Val, Vals};
use std::alloc::Global;

/// What is found in a configuration, each with its pointer, in order of the walk: an object before
/// its members, members in byte order of their keys, elements in order. Its time grows with the
/// configuration's size.
#[tactic(auto, unfolding(crate::specs::Walk::findings))]
pub fn find_all(alloc: Global, config: &Val) -> Result<Findings<'_>, NoMemory>
    ensures { IfOk result (λ fs. fs ≡ spec.findings config.now) }
{
    let mut out = Findings::new(alloc);
    let above = top(alloc, config)?;
    walk(alloc, config, config, Place::Top, above, "", &mut out)?;
    Ok(out)
}

#[cycle(walk)]
fn walk<'a>(
    alloc: Global,
    config: &Val,
    v: &'a Val,
    here: Place,
    above: Above,
    at: &str,
    out: &mut Findings<'a>,
) -> Result<(), NoMemory>
    ensures { OnOk result (out.new ≡ out.old ++ (spec.meaning v.now).found config.now here above at.now) }
{
    push_own(alloc, config, v, here, above, at, out)?;
    push_above(alloc, above, at, out)?;
    match v {
        Val::Arr(items) => list(alloc, config, items, here, above, at, out),
        Val::Obj(fields) => object(alloc, config, fields, here, above, at, out),
        _ => Ok(()),
    }
}

#[cycle(walk)]
fn list<'a>(
    alloc: Global,
    config: &Val,
    items: &'a Vals,
    here: Place,
    above: Above,
    at: &str,
    out: &mut Findings<'a>,
) -> Result<(), NoMemory>
    ensures { OnOk result (out.new ≡ out.old ++ spec.in_list config.now here above at.now (map spec.meaning items.now)) }
{
    match form_of(here) {
        Form::List { .. } => elements(alloc, config, items, element(here), inside(above), at, out),
        _ => Ok(()),
    }
}

#[cycle(walk)]
#[tactic(auto, using(bt_value::proofs::Depths::item_depth, bt_value::proofs::Depths::member_depth))]
fn elements<'a>(
    alloc: Global,
    config: &Val,
    items: &'a Vals,
    there: Place,
    above: Above,
    at: &str,
    out: &mut Findings<'a>,
) -> Result<(), NoMemory>
    ensures { OnOk result (out.new ≡ out.old ++ spec.in_elements config.now there above at.now 0 (map spec.meaning items.now)) }
{
    for (i, item) in items.as_slice().iter().enumerate() {
        let pointer = nth(alloc, at, i)?;
        walk(alloc, config, item, there, above, pointer.as_str(), out)?;
    }
    Ok(())
}

#[cycle(walk)]
fn object<'a>(
    alloc: Global,
    config: &Val,
    fields: &'a Members,
    here: Place,
    above: Above,
    at: &str,
    out: &mut Findings<'a>,
) -> Result<(), NoMemory>
    ensures { OnOk result (out.new ≡ out.old ++ spec.in_object config.now here above at.now (spec.met fields.now)) }
{
    if is_walked(here, fields) {
        members(alloc, config, fields, here, above, at, out)
    } else {
        Ok(())
    }
}

#[cycle(walk)]
#[tactic(auto, using(bt_value::proofs::Depths::item_depth, bt_value::proofs::Depths::member_depth))]
fn members<'a>(
    alloc: Global,
    config: &Val,
    fields: &'a Members,
    here: Place,
    above: Above,
    at: &str,
    out: &mut Findings<'a>,
) -> Result<(), NoMemory>
    ensures { OnOk result (out.new ≡ out.old ++ spec.in_members config.now here above at.now (spec.met fields.now)) }
{
    for field in fields.as_slice() {
        one_member(
            alloc,
            config,
            field.0.as_str(),
            &field.1,
            here,
            above,
            at,
            out,
        )?;
    }
    Ok(())
}

#[cycle(walk)]
fn one_member<'a>(
    alloc: Global,
    config: &Val,
    key: &str,
    v: &'a Val,
    here: Place,
    above: Above,
    at: &str,
    out: &mut Findings<'a>,
) -> Result<(), NoMemory>
    ensures { OnOk result (out.new ≡ out.old ++ spec.in_member config.now (table.member above.newer here key.now) here above (pointer.under at.now key.now) (spec.meaning v.now)) }
{
    let pointer = under(alloc, at, key)?;
    match member(above.newer, here, key) {
        Some(there) => {
            let next = entered(alloc, here, there, v, above)?;
            walk(alloc, config, v, there, next, pointer.as_str(), out)
        }
        None => push_unknown(alloc, here, pointer.as_str(), out),
    }
}

fn push_unknown(
    alloc: Global,
    here: Place,
    at: &str,
    out: &mut Findings<'_>,
) -> Result<(), NoMemory>
    ensures { OnOk result (out.new ≡ out.old ++ found.at_pointer at.now (found.wrong (spec.unknown (table.form_of here)) ∷ [])) }
{
    match form_of(here) {
        Form::Component => out.wrong(alloc, at, LintKind::UnknownKind),
        _ => out.wrong(alloc, at, LintKind::UnknownField),
    }
}
