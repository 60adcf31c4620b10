//! The shape of statements.

use crate::queries::{key, query};
use bt_syntax::{MapStmt, Mapping, Stmt};
use sqlite_items::Items;
use std::alloc::{AllocError, Global};

/// How deep a tree is printed.
const DEPTH: usize = 1000;

fn path(alloc: Global, out: &mut String, keys: &Items<bt_syntax::Key>) -> Result<(), AllocError> {
    for step in keys.as_slice() {
        out.push_str(" .")?;
        key(alloc, out, step)?;
    }
    out.push_str(" = ")
}

fn map_stmt(alloc: Global, out: &mut String, stmt: &MapStmt) -> Result<(), AllocError> {
    match stmt {
        MapStmt::Root {
            at,
            path: keys,
            query: assigned,
        } => {
            out.push_str(format!(in alloc; " (root@{at}")?.as_str())?;
            path(alloc, out, keys)?;
            query(alloc, out, assigned, DEPTH)?;
        }
        MapStmt::Let {
            name,
            query: assigned,
        } => {
            out.push_str(format!(in alloc; " (let {} = ", name.as_str())?.as_str())?;
            query(alloc, out, assigned, DEPTH)?;
        }
    }
    out.push_str(")")
}

fn map_body(alloc: Global, out: &mut String, body: &Items<MapStmt>) -> Result<(), AllocError> {
    for stmt in body.as_slice() {
        map_stmt(alloc, out, stmt)?;
    }
    Ok(())
}

fn stmt(alloc: Global, out: &mut String, stmt: &Stmt) -> Result<(), AllocError> {
    match stmt {
        Stmt::Root {
            at,
            line,
            path: keys,
            query: assigned,
        } => {
            out.push_str(format!(in alloc; "line {line} (root@{at}")?.as_str())?;
            path(alloc, out, keys)?;
            query(alloc, out, assigned, DEPTH)?;
        }
        Stmt::Meta {
            line,
            key: name,
            query: assigned,
        } => {
            out.push_str(format!(in alloc; "line {line} (meta")?.as_str())?;
            if let Some(name) = name {
                out.push_str(" ")?;
                key(alloc, out, name)?;
            }
            out.push_str(" = ")?;
            query(alloc, out, assigned, DEPTH)?;
        }
        Stmt::Let {
            line,
            name,
            query: assigned,
        } => {
            out.push_str(format!(in alloc; "line {line} (let {} = ", name.as_str())?.as_str())?;
            query(alloc, out, assigned, DEPTH)?;
        }
        Stmt::Map { at, name, body } => {
            out.push_str(format!(in alloc; "(map@{at} {}", name.as_str())?.as_str())?;
            map_body(alloc, out, body)?;
        }
    }
    out.push_str(")")
}

/// A mapping's shape.
pub fn mapping_shape(alloc: Global, mapping: &Mapping) -> Result<String, AllocError> {
    let mut out = String::new(alloc);
    match mapping {
        Mapping::Query { line, query: alone } => {
            out.push_str(format!(in alloc; "line {line} ")?.as_str())?;
            query(alloc, &mut out, alone, DEPTH)?;
        }
        Mapping::Statements(stmts) => {
            for (i, one) in stmts.as_slice().iter().enumerate() {
                if i > 0 {
                    out.push_str(" ; ")?;
                }
                stmt(alloc, &mut out, one)?;
            }
        }
    }
    Ok(out)
}
