//! Values of their own from the nodes of a text.
ghost use Rattle.std.specs.Prelude.{◌≡◌, IfOk, Some};
ghost use Rattle.json.specs.Find.{HasValue};
ghost use Rattle.serde_json.specs.Data.{Data, Items as DataItems, Members as DataMembers, no_members};
ghost use Rattle.serde_json.specs.Read.{of_json, of_items, of_members};
ghost use Rattle.bt_value.specs.Marked.{marked, marked_items, marked_members};
ghost use Rattle.bt_doc.specs.Built.{json_here, items_in, members_in};
ghost use Rattle.bt_doc.specs.Doc.{IsBegun, here};

use crate::part::whole_number;
use bt_ports::NoMemory;
use bt_ports::blob::Blob;
use bt_ports::text::Text;
use bt_value::{FieldsBuilder, Members, Val, Vals};
use json::Element;
use std::alloc::Global;

/// The value at a place that has one.
pub(crate) fn value_at(alloc: Global, element: &Element<'_, '_>) -> Result<Val, NoMemory>
    requires { IsBegun element.now }
    ensures { IfOk result (λ v. v ≡ here element.now) }
{
    built(alloc, element)
}

// A number that is no value has empty bytes in its place: a later member of the same name takes that.
#[cycle(built)]
fn built(alloc: Global, element: &Element<'_, '_>) -> Result<Val, NoMemory>
    requires { HasValue element.now }
    ensures { IfOk result (λ v. (d : Data) → of_json (json_here element.now) ≡ Some d → v ≡ marked d) }
{
    if let Some(text) = element.as_str() {
        return Ok(Val::Str(Text::make(alloc, text)?));
    }
    if let Some(text) = element.as_number() {
        return match whole_number(text) {
            Some(n) => Ok(Val::Int(n)),
            None => Ok(Val::Bytes(Blob::new(alloc))),
        };
    }
    if let Some(b) = element.as_bool() {
        return Ok(Val::Bool(b));
    }
    if element.items().is_some() {
        return Ok(Val::Arr(built_items(alloc, element)?));
    }
    if element.members().is_some() {
        return Ok(Val::Obj(built_members(alloc, element)?));
    }
    Ok(Val::Null)
}

#[cycle(built)]
fn built_items(alloc: Global, element: &Element<'_, '_>) -> Result<Vals, NoMemory>
    requires { HasValue element.now }
    ensures { IfOk result (λ vs. (ds : DataItems)
        → of_items (items_in (json_here element.now)) ≡ Some ds → vs ≡ marked_items ds) }
{
    let mut found = Vals::new(alloc);
    let Some(mut items) = element.items() else {
        return Ok(found);
    };
    'items: while let Some(item) = items.next() {
        found.push(built(alloc, &item)?)?;
    }
    Ok(found)
}

#[cycle(built)]
fn built_members(alloc: Global, element: &Element<'_, '_>) -> Result<Members, NoMemory>
    requires { HasValue element.now }
    ensures { IfOk result (λ vs. (ds : DataMembers)
        → of_members (members_in (json_here element.now)) no_members ≡ Some ds
        → vs ≡ marked_members ds) }
{
    let mut found = FieldsBuilder::new(alloc);
    let Some(mut members) = element.members() else {
        return found.finish();
    };
    'members: while let Some((name, member)) = members.next() {
        let key = Text::make(alloc, name)?;
        found.put(key, built(alloc, &member)?)?;
    }
    found.finish()
}
