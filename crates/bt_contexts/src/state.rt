//! What statements write.
ghost use Rattle.std.specs.Prelude.{◌≡◌, IfOk, map};
ghost use Rattle.bt_value.specs.declared.message.Out.TheVariants as out;
ghost use Rattle.bt_meaning.specs.Maps.{root_out};
ghost use Rattle.bt_meaning.specs.Outcomes.{key_text};
ghost use Rattle.bt_meaning.specs.Statements as spec;
ghost use Rattle.bt_kinds.specs.Targets.{object};
ghost use Rattle.bt_contexts.specs.Seen.{root_seen};

use crate::context::Read;
use crate::got::key_text;
use bt_kinds::kinds::kind_name;
use bt_kinds::moving::put;
use bt_kinds::targets::object;
use bt_meaning::{Root, State};
use bt_ports::NoMemory;
use bt_ports::text::Text;
use bt_tree::Key;
use bt_value::{Fields, Members, Out, PathFault, Val, path_delete, path_set};
use sqlite_items::Items;
use std::alloc::Global;

/// The document so far, as `root` is asked for it.
pub fn document(root: &Root) -> Option<Read<'_>>
    ensures { root_seen result ≡ spec.document_so_far root.now }
{
    match root {
        Root::Unset => None,
        Root::Gone => None,
        Root::Set(v) => Some(Read::Known(v)),
        Root::Unread(t) => Some(Read::Failed(t.as_str())),
    }
}

/// What the root of a map's body is.
pub fn root_given(root: Root) -> Out
    ensures { result ≡ root_out root }
{
    match root {
        Root::Unset => Out::Nothing,
        Root::Gone => Out::Deleted,
        Root::Set(v) => Out::Value(v),
        Root::Unread(t) => Out::Failed(t),
    }
}

/// The variables after `let`, or metadata after an assignment to one key.
fn bound(
    alloc: Global,
    name: &str,
    o: Out,
    mut members: Members,
) -> Result<Result<Members, Text>, NoMemory>
    ensures { IfOk result (λ r. r ≡ spec.bound name.now o members) }
{
    match o {
        Out::Failed(t) => Ok(Err(t)),
        Out::Nothing => Ok(Ok(members)),
        Out::Value(v) => {
            put(alloc, &mut members, name, v)?;
            Ok(Ok(members))
        }
        Out::Deleted => {
            drop(members.remove(name));
            Ok(Ok(members))
        }
    }
}

/// The texts of keys.
fn texts(alloc: Global, keys: &[Key]) -> Result<Vec<Text>, NoMemory>
    ensures { IfOk result (λ ts. ts.items ≡ map key_text keys.now) }
{
    let mut got = Vec::new(alloc);
    for key in keys {
        let text = Text::make(alloc, key_text(key))?;
        match got.push(text) {
            Ok(()) => {}
            Err(_) => return Err(NoMemory),
        }
    }
    Ok(got)
}

/// The document below which statements assign, or why it has no reading.
fn below(alloc: Global, root: Root) -> Result<Val, Text>
    ensures { result ≡ spec.below root }
{
    match root {
        Root::Unset => Ok(Val::Obj(Fields::new(alloc))),
        Root::Gone => Ok(Val::Obj(Fields::new(alloc))),
        Root::Set(v) => Ok(v),
        Root::Unread(t) => Err(t),
    }
}

/// The document with a value put into it, in place.
#[tactic(auto, using(crate::proofs::Setting::was_set, crate::proofs::Setting::no_object))]
fn set(
    alloc: Global,
    keys: &[Key],
    mut document: Val,
    v: Val,
) -> Result<Result<Root, Text>, NoMemory>
    ensures { IfOk result (λ r. r ≡ spec.set_in (map key_text keys.now) v document) }
{
    let path = texts(alloc, keys)?;
    match path_set(alloc, &mut document, path.as_slice(), v) {
        Ok(()) => Ok(Ok(Root::Set(document))),
        Err(PathFault::NotObject) => Ok(Err(Text::make(
            alloc,
            "root: path through a value that is not an object",
        )?)),
        Err(PathFault::TooDeep) => Ok(Err(Text::make(alloc, "root: too deep")?)),
        Err(PathFault::NoMemory) => Err(NoMemory),
    }
}

fn value_assigned(
    alloc: Global,
    keys: &[Key],
    v: Val,
    root: Root,
) -> Result<Result<Root, Text>, NoMemory>
    ensures { IfOk result (λ r. r ≡ spec.assigned (map key_text keys.now) (out.Value v) root) }
{
    match keys {
        [] => Ok(Ok(Root::Set(v))),
        [_, ..] => match below(alloc, root) {
            Ok(document) => set(alloc, keys, document, v),
            Err(t) => Ok(Err(t)),
        },
    }
}

fn deleted_at(alloc: Global, keys: &[Key], root: Root) -> Result<Result<Root, Text>, NoMemory>
    ensures { IfOk result (λ r. r ≡ spec.assigned (map key_text keys.now) out.Deleted root) }
{
    match keys {
        [] => Ok(Ok(Root::Gone)),
        [_, ..] => match below(alloc, root) {
            Ok(mut document) => {
                let path = texts(alloc, keys)?;
                path_delete(&mut document, path.as_slice());
                Ok(Ok(Root::Set(document)))
            }
            Err(t) => Ok(Err(t)),
        },
    }
}

/// The root after an assignment.
fn assigned(
    alloc: Global,
    keys: &Items<Key>,
    o: Out,
    root: Root,
) -> Result<Result<Root, Text>, NoMemory>
    ensures { IfOk result (λ r. r ≡ spec.assigned (map key_text keys.now) o root) }
{
    match o {
        Out::Failed(t) => Ok(Err(t)),
        Out::Nothing => Ok(Ok(root)),
        Out::Value(v) => value_assigned(alloc, keys.as_slice(), v, root),
        Out::Deleted => deleted_at(alloc, keys.as_slice(), root),
    }
}

/// The state after an assignment to the root or below it.
pub fn root_assigned(
    alloc: Global,
    keys: &Items<Key>,
    o: Out,
    state: State,
) -> Result<Result<State, Text>, NoMemory>
    ensures { IfOk result (λ r. r ≡ spec.with_root state (spec.assigned (map key_text keys.now) o state.root)) }
{
    let State { root, meta, vars } = state;
    match assigned(alloc, keys, o, root)? {
        Ok(root) => Ok(Ok(State { root, meta, vars })),
        Err(t) => Ok(Err(t)),
    }
}

/// The state after `let`.
pub fn var_assigned(
    alloc: Global,
    name: &str,
    o: Out,
    state: State,
) -> Result<Result<State, Text>, NoMemory>
    ensures { IfOk result (λ r. r ≡ spec.with_vars state (spec.bound name.now o state.vars)) }
{
    let State { root, meta, vars } = state;
    match bound(alloc, name, o, vars)? {
        Ok(vars) => Ok(Ok(State { root, meta, vars })),
        Err(t) => Ok(Err(t)),
    }
}

/// The metadata that an object is.
fn all_replaced(alloc: Global, v: Val) -> Result<Result<Members, Text>, NoMemory>
    ensures { IfOk result (λ r. r ≡ spec.all_replaced (object v)) }
{
    match object(v) {
        Ok(members) => Ok(Ok(members)),
        Err(kind) => {
            let mut text = Text::make(alloc, "meta: wrong type ")?;
            text.push_str(kind_name(kind))?;
            Ok(Err(text))
        }
    }
}

fn meta_set(
    alloc: Global,
    key: &Option<Key>,
    o: Out,
    meta: Members,
) -> Result<Result<Members, Text>, NoMemory>
    ensures { IfOk result (λ r. r ≡ spec.meta_assigned key.now o meta) }
{
    match key {
        Some(key) => bound(alloc, key_text(key), o, meta),
        None => match o {
            Out::Failed(t) => Ok(Err(t)),
            Out::Nothing => Ok(Ok(meta)),
            Out::Value(v) => all_replaced(alloc, v),
            Out::Deleted => Ok(Ok(Fields::new(alloc))),
        },
    }
}

/// The state after an assignment to metadata.
pub fn meta_assigned(
    alloc: Global,
    key: &Option<Key>,
    o: Out,
    state: State,
) -> Result<Result<State, Text>, NoMemory>
    ensures { IfOk result (λ r. r ≡ spec.with_meta state (spec.meta_assigned key.now o state.meta)) }
{
    let State { root, meta, vars } = state;
    match meta_set(alloc, key, o, meta)? {
        Ok(meta) => Ok(Ok(State { root, meta, vars })),
        Err(t) => Ok(Err(t)),
    }
}
