//! Mappings.

ghost use Rattle.std.specs.Prelude.{◌≡◌, ◌↔◌, IsTrue};
ghost use Rattle.bt_tree.specs.Same.{IsSame};
ghost use Rattle.bt_same.specs.Layers.{Each, SameKey, SameMapping, SameMapStmt, SameStmt};

use crate::leaves::{same_key, same_optional_key, same_text};
use crate::queries::query;
use bt_tree::{Key, MapStmt, Mapping, Stmt};

fn keys(a: &[Key], b: &[Key]) -> bool
    ensures { IsTrue result ↔ Each SameKey a.now b.now }
{
    if a.len() != b.len() {
        return false;
    }
    for i in 0..a.len() {
        if !same_key(&a[i], &b[i]) {
            return false;
        }
    }
    true
}

fn map_stmt(a: &MapStmt, b: &MapStmt) -> bool
    ensures { IsTrue result ↔ SameMapStmt a.now b.now }
{
    match a {
        MapStmt::Root {
            path: xs,
            query: p,
            ..
        } => match b {
            MapStmt::Root {
                path: ys,
                query: q,
                ..
            } => keys(xs.as_slice(), ys.as_slice()) && query(p, q),
            MapStmt::Let { .. } => false,
        },
        MapStmt::Let { name: x, query: p } => match b {
            MapStmt::Let { name: y, query: q } => same_text(x, y) && query(p, q),
            MapStmt::Root { .. } => false,
        },
    }
}

fn body(a: &[MapStmt], b: &[MapStmt]) -> bool
    ensures { IsTrue result ↔ Each SameMapStmt a.now b.now }
{
    if a.len() != b.len() {
        return false;
    }
    for i in 0..a.len() {
        if !map_stmt(&a[i], &b[i]) {
            return false;
        }
    }
    true
}

fn stmt(a: &Stmt, b: &Stmt) -> bool
    ensures { IsTrue result ↔ SameStmt a.now b.now }
{
    match a {
        Stmt::Root {
            path: xs,
            query: p,
            ..
        } => match b {
            Stmt::Root {
                path: ys,
                query: q,
                ..
            } => keys(xs.as_slice(), ys.as_slice()) && query(p, q),
            _ => false,
        },
        Stmt::Meta {
            key: x,
            query: p,
            ..
        } => match b {
            Stmt::Meta {
                key: y,
                query: q,
                ..
            } => same_optional_key(x, y) && query(p, q),
            _ => false,
        },
        Stmt::Let {
            name: x,
            query: p,
            ..
        } => match b {
            Stmt::Let {
                name: y,
                query: q,
                ..
            } => same_text(x, y) && query(p, q),
            _ => false,
        },
        Stmt::Map {
            name: x,
            body: xs,
            ..
        } => match b {
            Stmt::Map {
                name: y,
                body: ys,
                ..
            } => same_text(x, y) && body(xs.as_slice(), ys.as_slice()),
            _ => false,
        },
    }
}

fn stmts(a: &[Stmt], b: &[Stmt]) -> bool
    ensures { IsTrue result ↔ Each SameStmt a.now b.now }
{
    if a.len() != b.len() {
        return false;
    }
    for i in 0..a.len() {
        if !stmt(&a[i], &b[i]) {
            return false;
        }
    }
    true
}

fn mapping(a: &Mapping, b: &Mapping) -> bool
    ensures { IsTrue result ↔ SameMapping a.now b.now }
{
    match a {
        Mapping::Query { query: p, .. } => match b {
            Mapping::Query { query: q, .. } => query(p, q),
            Mapping::Statements(_) => false,
        },
        Mapping::Statements(xs) => match b {
            Mapping::Statements(ys) => stmts(xs.as_slice(), ys.as_slice()),
            Mapping::Query { .. } => false,
        },
    }
}

/// Whether two mappings are the same but for their places and lines. It takes no memory.
///
/// The running stack grows with how deep their queries nest.
pub fn same(a: &Mapping, b: &Mapping) -> bool
    ensures { IsTrue result ↔ IsSame a.now b.now }
{
    mapping(a, b)
}
