//! Values found, set and deleted at paths.

use crate::case::Case;
use crate::fault::Fault;
use crate::texts::{nested, shown};
use bt_ports::text::Text;
use bt_value::{Val, path_delete, path_get, path_set, read_json};
use std::alloc::Global;

// The names of a path.
fn names_of(alloc: Global, path: &str) -> Result<Vec<Text>, Fault> {
    let mut names = Vec::new(alloc);
    for name in path.split('.') {
        names.push(Text::make(alloc, name)?)?;
    }
    Ok(names)
}

/// What stands at the path.
pub fn get(alloc: Global, case: Case<'_>) -> Result<String, Fault> {
    let value = read_json(alloc, case.field("value").as_bytes())?;
    let names = names_of(alloc, case.field("path"))?;
    match path_get(&value, names.as_slice()) {
        Some(found) => shown(alloc, found),
        None => Ok(String::from_str(alloc, "nothing")?),
    }
}

// What is set: a value, or a list within as many lists.
fn given(alloc: Global, case: Case<'_>) -> Result<Val, Fault> {
    let levels = case.number("levels");
    if levels > 0 {
        let text = nested(alloc, levels)?;
        return Ok(read_json(alloc, text.as_slice())?);
    }
    Ok(read_json(alloc, case.field("given").as_bytes())?)
}

/// The value after another is set in it, or the fault and the value.
pub fn set(alloc: Global, case: Case<'_>) -> Result<String, Fault> {
    let mut value = read_json(alloc, case.field("value").as_bytes())?;
    let names = names_of(alloc, case.field("path"))?;
    let x = given(alloc, case)?;
    let outcome = path_set(alloc, &mut value, names.as_slice(), x);
    let after = shown(alloc, &value)?;
    match outcome {
        Ok(()) => Ok(after),
        Err(fault) => Ok(format!(in alloc; "{fault}: {after}")?),
    }
}

/// The value without what stands at the path.
pub fn delete(alloc: Global, case: Case<'_>) -> Result<String, Fault> {
    let mut value = read_json(alloc, case.field("value").as_bytes())?;
    let names = names_of(alloc, case.field("path"))?;
    path_delete(&mut value, names.as_slice());
    shown(alloc, &value)
}
