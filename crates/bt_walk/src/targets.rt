//! Lists of processors that pointers name.
ghost use Rattle.std.specs.Prelude.{◌≡◌, IfOk, option_map, map, eqb};
ghost use Rattle.std.specs.List.{slice_split};
ghost use Rattle.bt_walk.specs.Targets as spec;
ghost use Rattle.bt_value.specs.declared.val.Val.{out-Val};
ghost use Rattle.bt_schema.specs.declared.places.Place.TheVariants as place;

use crate::members::is_walked;
use bt_ports::NoMemory;
use bt_ports::text::Text;
use bt_schema::{Form, Place, element, form_of, member};
use bt_value::{Members, Val, path_get};
use sqlite_items::Items;
use std::alloc::Global;

/// Whether the pointer names a list of processors of the configuration.
pub fn is_target(alloc: Global, config: &Val, pointer: &str) -> Result<bool, NoMemory>
    ensures { IfOk result (λ b. b ≡ spec.is_target config.now pointer.now) }
{
    let names = names_of(alloc, pointer)?;
    Ok(name_list(config, names.as_slice()))
}

fn names_of(alloc: Global, pointer: &str) -> Result<Items<Text>, NoMemory>
    ensures { IfOk result (λ ns. ns ≡ slice_split (λ b. eqb b 47) pointer.now) }
{
    let mut names = Items::new(alloc);
    for name in pointer.split('/') {
        let text = Text::make(alloc, name)?;
        match names.push(text) {
            Ok(()) => {}
            Err(_) => return Err(NoMemory),
        }
    }
    Ok(names)
}

fn name_list(config: &Val, names: &[Text]) -> bool
    ensures { result ≡ spec.names_of_list names.now config.now }
{
    match names {
        [first, rest @ ..] => {
            if first.as_str().is_empty() {
                reaches_list(config, rest)
            } else {
                false
            }
        }
        [] => false,
    }
}

fn reaches_list(config: &Val, names: &[Text]) -> bool
    ensures { result ≡ spec.is_list_there (spec.reach names.now (place.Top, config.now)) }
{
    match reach(Place::Top, config, names) {
        Some((Place::Processors, Val::Arr(_))) => true,
        _ => false,
    }
}

/// The place and the value that the names lead to.
pub fn reach<'a>(start: Place, v: &'a Val, names: &[Text]) -> Option<(Place, &'a Val)>
    ensures { option_map (λ p. (p.0, p.1.now)) result ≡ spec.reach names.now (start, v.now) }
{
    let mut place = start;
    let mut here = v;
    for i in 0..names.len() {
        let next = place_below(names[i].as_str(), place, here)?;
        here = path_get(here, &names[i..i + 1])?;
        place = next;
    }
    Some((place, here))
}

fn place_below(name: &str, here: Place, v: &Val) -> Option<Place>
    ensures { result ≡ spec.place_below name.now here (out-Val v.now) }
{
    match v {
        Val::Arr(_) => place_of_items(here),
        Val::Obj(fields) => place_of_member(name, here, fields),
        _ => None,
    }
}

fn place_of_items(here: Place) -> Option<Place>
    ensures { result ≡ spec.place_of_items here }
{
    match form_of(here) {
        Form::List { .. } => Some(element(here)),
        _ => None,
    }
}

fn place_of_member(name: &str, here: Place, fields: &Members) -> Option<Place>
    ensures { result ≡ spec.place_of_member name.now here fields.now }
{
    if is_walked(here, fields) {
        member(true, here, name)
    } else {
        None
    }
}
