//! Statements in order.
ghost use Rattle.std.specs.Prelude.{◌≡◌, IfOk, Ok};
ghost use Rattle.bt_contexts.specs.Seen.{seen};
ghost use Rattle.bt_meaning.specs.Mapped as spec;
ghost use Rattle.bt_meaning.specs.Statements.{at_state};
ghost use Rattle.bt_meaning.specs.Value.{value};

use bt_contexts::Ctx;
use bt_contexts::got::own;
use bt_contexts::state::{document, meta_assigned, root_assigned, var_assigned};
use bt_meaning::State;
use bt_ports::NoMemory;
use bt_ports::text::Text;
use bt_queries::eval;
use bt_tree::{Mapping, Query, Stmt};
use bt_value::Out;
use sqlite_items::Items;
use std::alloc::Global;

/// What a statement's query gives, with the root and the variables so far.
fn at_state(alloc: Global, q: &Query, state: &State, c: &Ctx<'_>) -> Result<Out, NoMemory>
    ensures { IfOk result (λ o. o ≡ value q.now (at_state (seen c.now) state.now)) }
{
    let got = eval(
        alloc,
        q,
        &Ctx {
            vars: Some(&state.vars),
            root: document(&state.root),
            ..*c
        },
    )?;
    own(alloc, got)
}

/// The text of a statement that failed.
#[tactic(auto, unfolding(bt_meaning::specs::Mapped::failed_assignment))]
fn failed_assignment(alloc: Global, line: u64, reason: &str) -> Result<Text, NoMemory>
    ensures { IfOk result (λ t. t ≡ spec.failed_assignment line reason.now) }
{
    match format!(in alloc; "failed assignment (line {line}): {reason}") {
        Ok(text) => Ok(Text::from_string(text)),
        Err(_) => Err(NoMemory),
    }
}

fn in_line(
    alloc: Global,
    line: u64,
    r: Result<State, Text>,
) -> Result<Result<State, Text>, NoMemory>
    ensures { IfOk result (λ s. s ≡ spec.in_line line r) }
{
    match r {
        Ok(state) => Ok(Ok(state)),
        Err(t) => Ok(Err(failed_assignment(alloc, line, t.as_str())?)),
    }
}

fn statement(
    alloc: Global,
    s: &Stmt,
    state: State,
    c: &Ctx<'_>,
) -> Result<Result<State, Text>, NoMemory>
    ensures { IfOk result (λ r. r ≡ spec.statement (seen c.now) s.now state) }
{
    match s {
        Stmt::Root {
            line,
            path,
            query,
            ..
        } => {
            let o = at_state(alloc, query, &state, c)?;
            let r = root_assigned(alloc, path, o, state)?;
            in_line(alloc, *line, r)
        }
        Stmt::Meta { line, key, query } => {
            let o = at_state(alloc, query, &state, c)?;
            let r = meta_assigned(alloc, key, o, state)?;
            in_line(alloc, *line, r)
        }
        Stmt::Let { line, name, query } => {
            let o = at_state(alloc, query, &state, c)?;
            let r = var_assigned(alloc, name.as_str(), o, state)?;
            in_line(alloc, *line, r)
        }
        Stmt::Map { .. } => Ok(Ok(state)),
    }
}

fn statements(
    alloc: Global,
    ss: &[Stmt],
    mut state: State,
    c: &Ctx<'_>,
) -> Result<Result<State, Text>, NoMemory>
    ensures { IfOk result (λ r. r ≡ spec.statements (seen c.now) ss.now (Ok state)) }
{
    for s in ss {
        match statement(alloc, s, state, c)? {
            Ok(next) => state = next,
            Err(t) => return Ok(Err(t)),
        }
    }
    Ok(Ok(state))
}

/// What the statements of a mapping write, or the text of the one that failed.
pub fn body(
    alloc: Global,
    m: &Mapping,
    state: State,
    c: &Ctx<'_>,
) -> Result<Result<State, Text>, NoMemory>
    ensures { IfOk result (λ r. r ≡ spec.body (seen c.now) m.now state) }
{
    match m {
        Mapping::Query { line, query } => {
            let o = at_state(alloc, query, &state, c)?;
            let r = root_assigned(alloc, &Items::new(alloc), o, state)?;
            in_line(alloc, *line, r)
        }
        Mapping::Statements(ss) => statements(alloc, ss.as_slice(), state, c),
    }
}

/// The statements among which a mapping's maps stand.
pub fn maps_of(m: &Mapping) -> &[Stmt]
    ensures { result.now ≡ spec.maps_of m.now }
{
    match m {
        Mapping::Query { .. } => &[],
        Mapping::Statements(ss) => ss.as_slice(),
    }
}
