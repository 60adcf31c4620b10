//! What is found in a whole mapping.

ghost use Rattle.std.specs.Prelude.{◌≡◌, ◌++◌, flat_map, OnOk, IfOk};
ghost use Rattle.bt_literals.specs.Literals as spec;
ghost use Rattle.bt_findings.specs.Steps.{each};

use bt_findings::{Findings, find_all};
use bt_ports::NoMemory;
use bt_tree::{MapStmt, Mapping, Stmt};
use std::alloc::Global;

fn map_stmt(alloc: Global, out: &mut Findings, stmt: &MapStmt) -> Result<(), NoMemory>
    ensures { OnOk result (out.new.list ≡ out.old.list ++ spec.map_stmt_findings stmt.now) }
{
    match stmt {
        MapStmt::Root { query, .. } => find_all(alloc, out, query),
        MapStmt::Let { query, .. } => find_all(alloc, out, query),
    }
}

fn body(alloc: Global, out: &mut Findings, body: &[MapStmt]) -> Result<(), NoMemory>
    ensures { OnOk result (out.new.list ≡ each spec.map_stmt_findings out.old.list body.now) }
{
    for stmt in body {
        map_stmt(alloc, out, stmt)?;
    }
    Ok(())
}

fn stmt(alloc: Global, out: &mut Findings, stmt: &Stmt) -> Result<(), NoMemory>
    ensures { OnOk result (out.new.list ≡ out.old.list ++ spec.stmt_findings stmt.now) }
{
    match stmt {
        Stmt::Root { query, .. } => find_all(alloc, out, query),
        Stmt::Meta { query, .. } => find_all(alloc, out, query),
        Stmt::Let { query, .. } => find_all(alloc, out, query),
        Stmt::Map { body: inner, .. } => body(alloc, out, inner.as_slice()),
    }
}

fn stmts(alloc: Global, out: &mut Findings, stmts: &[Stmt]) -> Result<(), NoMemory>
    ensures { OnOk result (out.new.list ≡ each spec.stmt_findings out.old.list stmts.now) }
{
    for one in stmts {
        stmt(alloc, out, one)?;
    }
    Ok(())
}

/// What is found in the queries of a mapping, in order of the text.
pub fn mapping(alloc: Global, out: &mut Findings, mapping: &Mapping) -> Result<(), NoMemory>
    ensures { OnOk result (out.new.list ≡ out.old.list ++ spec.mapping_findings mapping.now) }
{
    match mapping {
        Mapping::Query { query, .. } => find_all(alloc, out, query),
        Mapping::Statements(found) => stmts(alloc, out, found.as_slice()),
    }
}
