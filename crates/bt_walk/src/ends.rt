//! The bytes that end the messages of sinks.
ghost use Rattle.std.specs.Prelude.{◌≡◌, ◌++◌, IfOk, OnOk, map, option_map, codes, [], ◌∷◌, List, ℕ, Some, if◌then◌else◌};
ghost use Rattle.std.specs.BTreeMap.{get_by_text};
ghost use Rattle.std.specs.Str.{bytes_eq};
ghost use Rattle.bt_schema.specs.Policies.{fields};
ghost use Rattle.bt_walk.specs.Ends as spec;
ghost use Rattle.bt_walk.specs.Meaning.{End};
ghost use Rattle.bt_walk.specs.Walk.{meaning, met};
ghost use Rattle.bt_schema.specs.Table as table;
ghost use Rattle.bt_schema.specs.declared.places.Place.TheVariants as place;
ghost use Rattle.bt_value.specs.Keys.{find};
ghost use Rattle.bt_value.specs.declared.val.Val.{out-Val};

use crate::members::is_walked;
use bt_ports::NoMemory;
use bt_ports::text::Text;
use bt_schema::{Form, Place, closing_bytes, element, form_of, member};
use bt_value::{Members, Val, Vals};
use sqlite_items::Items;
use std::alloc::Global;
use std::collections::BTreeMap;

type Ends = Items<(Text, Text)>;

type Firsts = BTreeMap<String, Text>;

/// Whether two leaves of one sink of an output end their messages with different bytes.
pub fn two_codecs(alloc: Global, newer: bool, there: Place, v: &Val) -> Result<bool, NoMemory>
    ensures { IfOk result (λ b. b ≡ spec.two_codecs newer there (meaning v.now)) }
{
    match there {
        Place::Output => ends_differ(alloc, newer, v),
        _ => Ok(false),
    }
}

fn ends_differ(alloc: Global, newer: bool, v: &Val) -> Result<bool, NoMemory>
    ensures { IfOk result (λ b. b ≡ spec.two_codecs newer place.Output (meaning v.now)) }
{
    let mut ends = Items::new(alloc);
    push_ends(alloc, newer, Place::Output, v, &mut ends)?;
    any_differs(alloc, ends.as_slice())
}

// Whether an end is other than the first of its sink.
fn any_differs(alloc: Global, ends: &[(Text, Text)]) -> Result<bool, NoMemory>
    ensures { IfOk result (λ b. b ≡ spec.differ ends.now ends.now) }
{
    let firsts = firsts_of(alloc, ends)?;
    Ok(differ(&firsts, ends))
}

fn differ(firsts: &Firsts, ends: &[(Text, Text)]) -> bool
    ensures { (all : List End) → ((q : List ℕ) → get_by_text firsts.now q ≡ find q all)
        → result ≡ spec.differ all ends.now }
{
    for end in ends {
        if is_other(firsts, end.0.as_str(), end.1.as_str()) {
            return true;
        }
    }
    false
}

fn is_other(firsts: &Firsts, name: &str, bytes: &str) -> bool
    ensures { result ≡ spec.is_other (get_by_text firsts.now name.now) bytes.now }
{
    match firsts.get(name) {
        Some(first) => bytes != first.as_str(),
        None => false,
    }
}

// The bytes of the first end of each sink.
fn firsts_of(alloc: Global, ends: &[(Text, Text)]) -> Result<Firsts, NoMemory>
    ensures { IfOk result (λ m. (q : List ℕ) → get_by_text m q ≡ find q ends.now) }
{
    let mut firsts = BTreeMap::new(alloc);
    let mut i = ends.len();
    while i > 0 {
        i -= 1;
        let end = &ends[i];
        put(alloc, &mut firsts, end.0.as_str(), end.1.as_str())?;
    }
    Ok(firsts)
}

#[tactic(auto, using(std::proofs::lemmas::Map::Text::text_keys))]
fn put(alloc: Global, firsts: &mut Firsts, name: &str, bytes: &str) -> Result<(), NoMemory>
    ensures { OnOk result ((q : List ℕ) → get_by_text firsts.new q ≡ (if bytes_eq q name.now then Some bytes.now else get_by_text firsts.old q)) }
{
    let value = Text::make(alloc, bytes)?;
    let Ok(key) = String::from_str(alloc, name) else {
        return Err(NoMemory);
    };
    match firsts.insert(key, value) {
        Ok(_) => Ok(()),
        Err(_) => Err(NoMemory),
    }
}

#[cycle(push_ends)]
#[tactic(auto, using(crate::proofs::Same::is_same))]
fn push_ends(
    alloc: Global,
    newer: bool,
    there: Place,
    v: &Val,
    out: &mut Ends,
) -> Result<(), NoMemory>
    ensures { OnOk result (out.new ≡ out.old ++ spec.ends_within newer there (meaning v.now)) }
{
    push_own(alloc, newer, there, v, out)?;
    push_below(alloc, newer, there, v, out)
}

#[cycle(push_ends)]
fn push_below(
    alloc: Global,
    newer: bool,
    here: Place,
    v: &Val,
    out: &mut Ends,
) -> Result<(), NoMemory>
    ensures { OnOk result (out.new ≡ out.old ++ (meaning v.now).ends newer here) }
{
    match v {
        Val::Arr(items) => push_list(alloc, newer, here, items, out),
        Val::Obj(fields) => push_object(alloc, newer, here, fields, out),
        _ => Ok(()),
    }
}

#[cycle(push_ends)]
fn push_list(
    alloc: Global,
    newer: bool,
    here: Place,
    items: &Vals,
    out: &mut Ends,
) -> Result<(), NoMemory>
    ensures { OnOk result (out.new ≡ out.old ++ spec.ends_list newer here (map meaning items.now)) }
{
    match form_of(here) {
        Form::List { .. } => push_items(alloc, newer, element(here), items, out),
        _ => Ok(()),
    }
}

#[cycle(push_ends)]
#[tactic(auto, using(bt_value::proofs::Depths::item_depth, bt_value::proofs::Depths::member_depth))]
fn push_items(
    alloc: Global,
    newer: bool,
    here: Place,
    items: &Vals,
    out: &mut Ends,
) -> Result<(), NoMemory>
    ensures { OnOk result (out.new ≡ out.old ++ spec.ends_items newer here (map meaning items.now)) }
{
    for item in items.as_slice() {
        push_ends(alloc, newer, here, item, out)?;
    }
    Ok(())
}

#[cycle(push_ends)]
fn push_object(
    alloc: Global,
    newer: bool,
    here: Place,
    fields: &Members,
    out: &mut Ends,
) -> Result<(), NoMemory>
    ensures { OnOk result (out.new ≡ out.old ++ spec.ends_object newer here (met fields.now)) }
{
    if is_walked(here, fields) {
        push_members(alloc, newer, here, fields, out)
    } else {
        Ok(())
    }
}

#[cycle(push_ends)]
#[tactic(auto, using(bt_value::proofs::Depths::item_depth, bt_value::proofs::Depths::member_depth))]
fn push_members(
    alloc: Global,
    newer: bool,
    here: Place,
    fields: &Members,
    out: &mut Ends,
) -> Result<(), NoMemory>
    ensures { OnOk result (out.new ≡ out.old ++ spec.ends_members newer here (met fields.now)) }
{
    for field in fields.as_slice() {
        push_member(alloc, newer, here, field.0.as_str(), &field.1, out)?;
    }
    Ok(())
}

#[cycle(push_ends)]
fn push_member(
    alloc: Global,
    newer: bool,
    here: Place,
    key: &str,
    v: &Val,
    out: &mut Ends,
) -> Result<(), NoMemory>
    ensures { OnOk result (out.new ≡ out.old ++ spec.ends_member newer (table.member newer here key.now) (meaning v.now)) }
{
    match member(newer, here, key) {
        Some(there) => push_ends(alloc, newer, there, v, out),
        None => Ok(()),
    }
}

fn push_own(
    alloc: Global,
    newer: bool,
    there: Place,
    v: &Val,
    out: &mut Ends,
) -> Result<(), NoMemory>
    ensures { OnOk result (out.new ≡ out.old ++ spec.own_ends newer there v.now) }
{
    match (sink(alloc, there, v)?, closing(newer, v)) {
        (Some(name), Some(bytes)) => push_end(alloc, name, bytes, out),
        _ => Ok(()),
    }
}

fn push_end(alloc: Global, name: Text, bytes: &str, out: &mut Ends) -> Result<(), NoMemory>
    ensures { OnOk result (out.new ≡ out.old ++ (name, bytes.now) ∷ []) }
{
    let end = Text::make(alloc, bytes)?;
    match out.push((name, end)) {
        Ok(()) => Ok(()),
        Err(_) => Err(NoMemory),
    }
}

fn closing(newer: bool, v: &Val) -> Option<&str>
    ensures { option_map (λ x. x.now) result ≡ spec.closing newer (out-Val v.now) }
{
    match v {
        Val::Obj(fields) => closing_at(newer, fields),
        _ => None,
    }
}

fn closing_at(newer: bool, fields: &Members) -> Option<&str>
    ensures { option_map (λ x. x.now) result ≡ spec.closing_at newer (find (codes "codec") fields.now) }
{
    match fields.find("codec") {
        Some(Val::Str(codec)) => closing_bytes(newer, codec.as_str()),
        Some(_) => None,
        None => Some("\n"),
    }
}

fn sink(alloc: Global, there: Place, v: &Val) -> Result<Option<Text>, NoMemory>
    ensures { IfOk result (λ o. o ≡ spec.sink there v.now) }
{
    match there {
        Place::Stdout => {
            let name = Text::make(alloc, "stdout")?;
            Ok(Some(name))
        }
        Place::FileOutput => file_sink(alloc, v),
        _ => Ok(None),
    }
}

fn file_sink(alloc: Global, v: &Val) -> Result<Option<Text>, NoMemory>
    ensures { IfOk result (λ o. o ≡ spec.sink_at (find (codes "path") (fields v.now))) }
{
    match v {
        Val::Obj(fields) => sink_at(alloc, fields),
        _ => Ok(None),
    }
}

fn sink_at(alloc: Global, fields: &Members) -> Result<Option<Text>, NoMemory>
    ensures { IfOk result (λ o. o ≡ spec.sink_at (find (codes "path") fields.now)) }
{
    match fields.find("path") {
        Some(Val::Str(path)) => sink_named(alloc, path.as_str()),
        _ => Ok(None),
    }
}

fn sink_named(alloc: Global, path: &str) -> Result<Option<Text>, NoMemory>
    ensures { IfOk result (λ o. o ≡ spec.file_sink path.now) }
{
    if path.is_empty() {
        return Ok(None);
    }
    let mut name = Text::make(alloc, "file:")?;
    name.push_str(path)?;
    Ok(Some(name))
}
