//! Looks into a text, and into its tree.

use crate::case::Case;
use crate::fault::Fault;
use crate::texts::shown;
use bt_doc::{Doc, Part};
use bt_value::read_json;
use json::Scratch;
use std::alloc::Global;

// What stands at the names of a path: a member, or an item where the name is a number.
fn found<'t, 'a>(root: Part<'t, 'a>, path: &str) -> Option<Part<'t, 'a>> {
    let mut here = root;
    for name in path.split('.') {
        here = match name.parse::<usize>() {
            Ok(place) => here.at(place)?,
            Err(_) => here.get(name)?,
        };
    }
    Some(here)
}

// A part as a value, and what it is if it is a scalar.
fn told(alloc: Global, part: Option<Part<'_, '_>>) -> Result<String, Fault> {
    let Some(part) = part else {
        return Ok(String::from_str(alloc, "nothing")?);
    };
    let value = shown(alloc, &part.to_val(alloc)?)?;
    let kind = if part.as_str().is_some() {
        "text"
    } else if part.as_i64().is_some() {
        "number"
    } else if part.as_bool().is_some() {
        "boolean"
    } else {
        "other"
    };
    Ok(format!(in alloc; "{kind} {value}")?)
}

/// What stands at a path of a text that is opened.
pub fn in_text(alloc: Global, case: Case<'_>) -> Result<String, Fault> {
    let mut scratch = Scratch::new(alloc);
    let doc = Doc::open(alloc, case.field("text").as_bytes(), &mut scratch)?;
    told(alloc, found(doc.root(), case.field("path")))
}

/// What stands at a path of the text's tree.
pub fn in_tree(alloc: Global, case: Case<'_>) -> Result<String, Fault> {
    let value = read_json(alloc, case.field("text").as_bytes())?;
    told(alloc, found(Part::of(&value), case.field("path")))
}
