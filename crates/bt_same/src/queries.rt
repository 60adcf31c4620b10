//! Queries, variant by variant.
//!
//! The functions call each other down both trees, and so the running stack grows with their depth alone:
//! lists are gone over by loops.

ghost use Rattle.std.specs.Prelude.{◌≡◌, ◌↔◌, IsTrue};
ghost use Rattle.bt_tree.specs.Same.{query_erased};
ghost use Rattle.bt_tree.specs.declared.tree.Query.{out-Query};
ghost use Rattle.bt_same.specs.Layers.{AreSame, Each, SameArg, SameBranch, SameCase, SameMember, SameOption, SameQuery, SameSuffix, SameTerm};

use crate::leaves::{same_key, same_op, same_prefix, same_text};
use bt_tree::{Arg, Branch, Case, Member, Query, Suffix, Term};
use sqlite_items::Boxed;

/// Whether two queries are the same but for their places.
#[cycle(query)]
pub fn query(a: &Query, b: &Query) -> bool
    ensures { IsTrue result ↔ (query_erased a.now ≡ query_erased b.now) }
{
    node(a, b)
}

/// By the variants of both.
#[cycle(query)]
fn node(a: &Query, b: &Query) -> bool
    ensures { IsTrue result ↔ AreSame (out-Query a.now) (out-Query b.now) }
{
    match a {
        Query::Null => matches!(b, Query::Null),
        Query::True => matches!(b, Query::True),
        Query::False => matches!(b, Query::False),
        Query::Int(m) => match b {
            Query::Int(n) => *m == *n,
            _ => false,
        },
        Query::Quoted(v) => match b {
            Query::Quoted(w) => same_text(&v.text, &w.text),
            _ => false,
        },
        Query::This => matches!(b, Query::This),
        Query::Root(_) => matches!(b, Query::Root(_)),
        Query::Name(v) => match b {
            Query::Name(w) => same_text(&v.text, &w.text),
            _ => false,
        },
        Query::Var(v) => match b {
            Query::Var(w) => same_text(&v.text, &w.text),
            _ => false,
        },
        Query::Metadata => matches!(b, Query::Metadata),
        Query::Meta(x) => match b {
            Query::Meta(y) => same_key(x, y),
            _ => false,
        },
        Query::Call(v, xs) => match b {
            Query::Call(w, ys) => same_text(&v.text, &w.text) && args(xs.as_slice(), ys.as_slice()),
            _ => false,
        },
        Query::Paren(x) => match b {
            Query::Paren(y) => query(x.get(), y.get()),
            _ => false,
        },
        Query::List(xs) => match b {
            Query::List(ys) => queries(xs.as_slice(), ys.as_slice()),
            _ => false,
        },
        Query::Object(xs) => match b {
            Query::Object(ys) => members(xs.as_slice(), ys.as_slice()),
            _ => false,
        },
        Query::Item(x, xs) => match b {
            Query::Item(y, ys) => query(x.get(), y.get()) && suffixes(xs.as_slice(), ys.as_slice()),
            _ => false,
        },
        Query::Prefix(o, x) => match b {
            Query::Prefix(p, y) => same_prefix(*o, *p) && query(x.get(), y.get()),
            _ => false,
        },
        Query::Product(x, xs) => match b {
            Query::Product(y, ys) => query(x.get(), y.get()) && terms(xs.as_slice(), ys.as_slice()),
            _ => false,
        },
        Query::Sum(x, xs) => match b {
            Query::Sum(y, ys) => query(x.get(), y.get()) && terms(xs.as_slice(), ys.as_slice()),
            _ => false,
        },
        Query::Compare(x, o, z) => match b {
            Query::Compare(y, p, w) => query(x.get(), y.get())
                && same_op(*o, *p)
                && query(z.get(), w.get()),
            _ => false,
        },
        Query::And(x, xs) => match b {
            Query::And(y, ys) => query(x.get(), y.get()) && queries(xs.as_slice(), ys.as_slice()),
            _ => false,
        },
        Query::Or(x, xs) => match b {
            Query::Or(y, ys) => query(x.get(), y.get()) && queries(xs.as_slice(), ys.as_slice()),
            _ => false,
        },
        Query::Coalesce(x, xs) => match b {
            Query::Coalesce(y, ys) => query(x.get(), y.get())
                && queries(xs.as_slice(), ys.as_slice()),
            _ => false,
        },
        Query::Match(x, xs) => match b {
            Query::Match(y, ys) => optional(x, y) && cases(xs.as_slice(), ys.as_slice()),
            _ => false,
        },
        Query::If(xs, x) => match b {
            Query::If(ys, y) => branches(xs.as_slice(), ys.as_slice()) && optional(x, y),
            _ => false,
        },
    }
}

#[cycle(query)]
fn optional(a: &Option<Boxed<Query>>, b: &Option<Boxed<Query>>) -> bool
    ensures { IsTrue result ↔ SameOption a.now b.now }
{
    match a {
        None => b.is_none(),
        Some(x) => match b {
            Some(y) => query(x.get(), y.get()),
            None => false,
        },
    }
}

#[cycle(query)]
fn queries(a: &[Query], b: &[Query]) -> bool
    ensures { IsTrue result ↔ Each SameQuery a.now b.now }
{
    if a.len() != b.len() {
        return false;
    }
    for i in 0..a.len() {
        if !query(&a[i], &b[i]) {
            return false;
        }
    }
    true
}

#[cycle(query)]
fn arg(a: &Arg<Query>, b: &Arg<Query>) -> bool
    ensures { IsTrue result ↔ SameArg a.now b.now }
{
    match a {
        Arg::Query(x) => match b {
            Arg::Query(y) => query(x, y),
            Arg::Lambda(_, _) => false,
        },
        Arg::Lambda(m, x) => match b {
            Arg::Lambda(n, y) => same_text(m, n) && query(x, y),
            Arg::Query(_) => false,
        },
    }
}

#[cycle(query)]
fn args(a: &[Arg<Query>], b: &[Arg<Query>]) -> bool
    ensures { IsTrue result ↔ Each SameArg a.now b.now }
{
    if a.len() != b.len() {
        return false;
    }
    for i in 0..a.len() {
        if !arg(&a[i], &b[i]) {
            return false;
        }
    }
    true
}

#[cycle(query)]
fn suffix(a: &Suffix<Query>, b: &Suffix<Query>) -> bool
    ensures { IsTrue result ↔ SameSuffix a.now b.now }
{
    match a {
        Suffix::Name(m) => match b {
            Suffix::Name(n) => same_text(m, n),
            _ => false,
        },
        Suffix::Quoted(m) => match b {
            Suffix::Quoted(n) => same_text(m, n),
            _ => false,
        },
        Suffix::Int(m) => match b {
            Suffix::Int(n) => *m == *n,
            _ => false,
        },
        Suffix::Method(v, xs) => match b {
            Suffix::Method(w, ys) => same_text(&v.text, &w.text)
                && args(xs.as_slice(), ys.as_slice()),
            _ => false,
        },
        Suffix::Within(x) => match b {
            Suffix::Within(y) => arg(x, y),
            _ => false,
        },
    }
}

#[cycle(query)]
fn suffixes(a: &[Suffix<Query>], b: &[Suffix<Query>]) -> bool
    ensures { IsTrue result ↔ Each SameSuffix a.now b.now }
{
    if a.len() != b.len() {
        return false;
    }
    for i in 0..a.len() {
        if !suffix(&a[i], &b[i]) {
            return false;
        }
    }
    true
}

#[cycle(query)]
fn member(a: &Member<Query>, b: &Member<Query>) -> bool
    ensures { IsTrue result ↔ SameMember a.now b.now }
{
    same_text(&a.key, &b.key) && query(&a.query, &b.query)
}

#[cycle(query)]
fn members(a: &[Member<Query>], b: &[Member<Query>]) -> bool
    ensures { IsTrue result ↔ Each SameMember a.now b.now }
{
    if a.len() != b.len() {
        return false;
    }
    for i in 0..a.len() {
        if !member(&a[i], &b[i]) {
            return false;
        }
    }
    true
}

#[cycle(query)]
fn term(a: &Term<Query>, b: &Term<Query>) -> bool
    ensures { IsTrue result ↔ SameTerm a.now b.now }
{
    same_op(a.op, b.op) && query(&a.query, &b.query)
}

#[cycle(query)]
fn terms(a: &[Term<Query>], b: &[Term<Query>]) -> bool
    ensures { IsTrue result ↔ Each SameTerm a.now b.now }
{
    if a.len() != b.len() {
        return false;
    }
    for i in 0..a.len() {
        if !term(&a[i], &b[i]) {
            return false;
        }
    }
    true
}

#[cycle(query)]
fn case(a: &Case<Query>, b: &Case<Query>) -> bool
    ensures { IsTrue result ↔ SameCase a.now b.now }
{
    match a {
        Case::Any(x) => match b {
            Case::Any(y) => query(x, y),
            Case::When(_, _) => false,
        },
        Case::When(x, z) => match b {
            Case::When(y, w) => query(x, y) && query(z, w),
            Case::Any(_) => false,
        },
    }
}

#[cycle(query)]
fn cases(a: &[Case<Query>], b: &[Case<Query>]) -> bool
    ensures { IsTrue result ↔ Each SameCase a.now b.now }
{
    if a.len() != b.len() {
        return false;
    }
    for i in 0..a.len() {
        if !case(&a[i], &b[i]) {
            return false;
        }
    }
    true
}

#[cycle(query)]
fn branch(a: &Branch<Query>, b: &Branch<Query>) -> bool
    ensures { IsTrue result ↔ SameBranch a.now b.now }
{
    query(&a.test, &b.test) && query(&a.gives, &b.gives)
}

#[cycle(query)]
fn branches(a: &[Branch<Query>], b: &[Branch<Query>]) -> bool
    ensures { IsTrue result ↔ Each SameBranch a.now b.now }
{
    if a.len() != b.len() {
        return false;
    }
    for i in 0..a.len() {
        if !branch(&a[i], &b[i]) {
            return false;
        }
    }
    true
}
