//! Configurations in the words of version 2.
ghost use Rattle.std.specs.Prelude.{◌≡◌, IfOk, OnOk, map, option_map, Some, ◌++◌, ◌∷◌, [], codes, not, nat_le, true, false};
ghost use Rattle.bt_config.specs.Migrated as spec;
ghost use Rattle.bt_value.specs.Depth as depths;
ghost use Rattle.bt_value.specs.Plain.{has_bytes};
ghost use Rattle.bt_value.specs.declared.val.Val.{Obj};

use crate::reading::Config;
use bt_ports::NoMemory;
use bt_ports::blob::Blob;
use bt_ports::text::Text;
use bt_schema::{Place, delimiter, element, member};
use bt_value::{Members, Val, Vals};
use sqlite_items::Items;
use std::alloc::Global;

/// The configuration in the words of version 2: it has `version` 2, its processors `bloblang` are
/// named `mapping`, its inputs have no `auto_replay_nacks`, and scanners in place of codecs. All
/// else stays.
///
/// It is meant for a configuration without lints.
#[tactic(auto, using(crate::proofs::Plain::migrated_plain))]
pub fn migrate(alloc: Global, config: &Config) -> Result<Config, NoMemory>
    ensures moved { IfOk result (λ new. new.doc ≡ spec.migrated config.now.doc) }
    ensures plain { has_bytes config.now.doc ≡ false → IfOk result (λ new. has_bytes new.doc ≡ false) }
{
    let doc = migrated(alloc, &config.doc)?;
    Ok(Config { doc })
}

fn migrated(alloc: Global, v: &Val) -> Result<Val, NoMemory>
    ensures { IfOk result (λ w. w ≡ spec.migrated v.now) }
{
    let all = moved(alloc, true, Place::Top, v)?;
    if is_deep(&all) {
        moved(alloc, false, Place::Top, v)
    } else {
        Ok(all)
    }
}

#[cycle(moved)]
fn moved(alloc: Global, scanners: bool, here: Place, v: &Val) -> Result<Val, NoMemory>
    ensures { IfOk result (λ w. w ≡ spec.moved v.now scanners here) }
{
    match v {
        Val::Null => Ok(Val::Null),
        Val::Bool(b) => Ok(Val::Bool(*b)),
        Val::Int(n) => Ok(Val::Int(*n)),
        Val::Str(t) => Ok(Val::Str(Text::make(alloc, t.as_str())?)),
        Val::Bytes(b) => Ok(Val::Bytes(Blob::make(alloc, b.as_slice())?)),
        Val::Arr(items) => Ok(Val::Arr(moved_items(alloc, scanners, element(here), items)?)),
        Val::Obj(fields) => Ok(Val::Obj(moved_fields(alloc, scanners, here, fields)?)),
    }
}

#[cycle(moved)]
#[tactic(auto, using(bt_value::proofs::Depths::item_depth, bt_value::proofs::Depths::member_depth))]
fn moved_items(alloc: Global, scanners: bool, here: Place, items: &Vals) -> Result<Vals, NoMemory>
    ensures { IfOk result (λ vs. vs ≡ spec.moved_items scanners here (map spec.moved items.now)) }
{
    let mut out = Items::new(alloc);
    for item in items.as_slice() {
        push_item(&mut out, moved(alloc, scanners, here, item)?)?;
    }
    Ok(out)
}

fn push_item(out: &mut Vals, v: Val) -> Result<(), NoMemory>
    ensures { OnOk result (out.new ≡ out.old ++ v ∷ []) }
{
    match out.push(v) {
        Ok(()) => Ok(()),
        Err(_) => Err(NoMemory),
    }
}

#[cycle(moved)]
fn moved_fields(
    alloc: Global,
    scanners: bool,
    here: Place,
    fields: &Members,
) -> Result<Members, NoMemory>
    ensures { IfOk result (λ ms. ms ≡ spec.fixed scanners here (spec.moved_members scanners here (spec.with_moves fields.now))) }
{
    let mut out = moved_members(alloc, scanners, here, fields)?;
    fix(alloc, scanners, here, &mut out)?;
    Ok(out)
}

#[cycle(moved)]
#[tactic(auto, using(bt_value::proofs::Depths::item_depth, bt_value::proofs::Depths::member_depth))]
fn moved_members(
    alloc: Global,
    scanners: bool,
    here: Place,
    fields: &Members,
) -> Result<Members, NoMemory>
    ensures { IfOk result (λ ms. ms ≡ spec.moved_members scanners here (spec.with_moves fields.now)) }
{
    let mut out = Members::new(alloc);
    for field in fields.as_slice() {
        let key = Text::make(alloc, field.0.as_str())?;
        let value = moved_member(alloc, scanners, here, field.0.as_str(), &field.1)?;
        out.push(key, value)?;
    }
    Ok(out)
}

#[cycle(moved)]
fn moved_member(
    alloc: Global,
    scanners: bool,
    here: Place,
    key: &str,
    v: &Val,
) -> Result<Val, NoMemory>
    ensures { IfOk result (λ w. w ≡ spec.moved v.now scanners (spec.below here key.now)) }
{
    moved(alloc, scanners, below(here, key), v)
}

fn below(here: Place, key: &str) -> Place
    ensures { result ≡ spec.below here key.now }
{
    match member(true, here, key) {
        Some(t) => t,
        None => Place::Refused,
    }
}

fn fix(alloc: Global, scanners: bool, here: Place, ms: &mut Members) -> Result<(), NoMemory>
    ensures { OnOk result (ms.new ≡ spec.fixed scanners here ms.old) }
{
    match here {
        Place::Top => put(alloc, ms, "version", Val::Int(2)),
        Place::Processor => rename(alloc, ms),
        Place::Stdin | Place::FileInput => {
            drop(ms.remove("auto_replay_nacks"));
            scan(alloc, scanners, ms)
        }
        _ => Ok(()),
    }
}

fn put(alloc: Global, ms: &mut Members, key: &str, v: Val) -> Result<(), NoMemory>
    ensures { OnOk result (ms.new ≡ spec.put key.now (Some v) ms.old) }
{
    let name = Text::make(alloc, key)?;
    ms.put(name, v)
}

fn rename(alloc: Global, ms: &mut Members) -> Result<(), NoMemory>
    ensures { OnOk result (ms.new ≡ spec.renamed ms.old) }
{
    match ms.remove("bloblang") {
        Some(v) => put(alloc, ms, "mapping", v),
        None => Ok(()),
    }
}

fn scan(alloc: Global, scanners: bool, ms: &mut Members) -> Result<(), NoMemory>
    ensures { OnOk result (ms.new ≡ spec.scanned scanners ms.old) }
{
    if scanners {
        to_scanner(alloc, ms)
    } else {
        Ok(())
    }
}

fn to_scanner(alloc: Global, ms: &mut Members) -> Result<(), NoMemory>
    ensures { OnOk result (ms.new ≡ spec.scanned true ms.old) }
{
    match ms.remove("codec") {
        Some(v) => {
            let scanner = scanner_for(alloc, &v)?;
            put(alloc, ms, "scanner", scanner)
        }
        None => Ok(()),
    }
}

fn scanner_for(alloc: Global, v: &Val) -> Result<Val, NoMemory>
    ensures { IfOk result (λ w. w ≡ spec.scanner_for v.now) }
{
    match v {
        Val::Str(codec) => lines_scanner(alloc, codec.as_str()),
        _ => Ok(Val::Null),
    }
}

fn lines_scanner(alloc: Global, codec: &str) -> Result<Val, NoMemory>
    ensures { IfOk result (λ w. w ≡ Obj ((codes "lines", Obj (spec.scanner_fields codec.now)) ∷ [])) }
{
    let fields = scanner_fields(alloc, codec)?;
    let mut scanner = Members::new(alloc);
    put(alloc, &mut scanner, "lines", Val::Obj(fields))?;
    Ok(Val::Obj(scanner))
}

fn scanner_fields(alloc: Global, codec: &str) -> Result<Members, NoMemory>
    ensures { IfOk result (λ ms. ms ≡ spec.scanner_fields codec.now) }
{
    let mut fields = Members::new(alloc);
    if codec == "lines" {
        return Ok(fields);
    }
    match delimiter(codec) {
        Some(x) => {
            let x = Text::make(alloc, x)?;
            put(alloc, &mut fields, "custom_delimiter", Val::Str(x))?;
            Ok(fields)
        }
        None => Ok(fields),
    }
}

fn is_deep(v: &Val) -> bool
    ensures { result ≡ not (nat_le (depths.depth v.now) 127) }
{
    !is_within(v, 127)
}

// Whether a value nests no deeper.
#[cycle(is_within)]
fn is_within(v: &Val, most: u32) -> bool
    ensures { result ≡ nat_le (depths.depth v.now) most }
{
    match v {
        Val::Arr(items) => most > 0 && are_within(items, most - 1),
        Val::Obj(fields) => most > 0 && fields_within(fields, most - 1),
        _ => true,
    }
}

#[cycle(is_within)]
#[tactic(auto, using(bt_value::proofs::Depths::item_depth, bt_value::proofs::Depths::member_depth))]
fn are_within(items: &Vals, most: u32) -> bool
    ensures { result ≡ nat_le (depths.items_depth items.now) most }
{
    for item in items.as_slice() {
        if !is_within(item, most) {
            return false;
        }
    }
    true
}

#[cycle(is_within)]
#[tactic(auto, using(bt_value::proofs::Depths::item_depth, bt_value::proofs::Depths::member_depth))]
fn fields_within(fields: &Members, most: u32) -> bool
    ensures { result ≡ nat_le (depths.members_depth fields.now) most }
{
    for field in fields.as_slice() {
        if !is_within(&field.1, most) {
            return false;
        }
    }
    true
}
