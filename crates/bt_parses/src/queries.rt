//! The shape of queries.

use bt_syntax::{Arg, Branch, Case, Key, Member, Query, Suffix, Term, Word};
use bt_value::{Op, PrefixOp};
use sqlite_items::{Boxed, Items};
use std::alloc::{AllocError, Global};

fn op_text(op: Op) -> &'static str {
    match op {
        Op::Add => "+",
        Op::Sub => "-",
        Op::Mul => "*",
        Op::Div => "/",
        Op::Rem => "%",
        Op::Equal => "==",
        Op::NotEqual => "!=",
        Op::Less => "<",
        Op::AtMost => "<=",
        Op::More => ">",
        Op::AtLeast => ">=",
        Op::And => "&&",
        Op::Or => "||",
    }
}

fn word(alloc: Global, out: &mut String, word: &Word) -> Result<(), AllocError> {
    out.push_str(format!(in alloc; "{}@{}", word.text.as_str(), word.at)?.as_str())
}

fn quoted(alloc: Global, out: &mut String, text: &str) -> Result<(), AllocError> {
    out.push_str(format!(in alloc; "{text:?}")?.as_str())
}

/// A key.
pub fn key(alloc: Global, out: &mut String, key: &Key) -> Result<(), AllocError> {
    match key {
        Key::Name(text) => out.push_str(text.as_str()),
        Key::Quoted(text) => quoted(alloc, out, text.as_str()),
    }
}

fn leaf(alloc: Global, out: &mut String, query: &Query) -> Result<(), AllocError> {
    match query {
        Query::Null => out.push_str("null"),
        Query::True => out.push_str("true"),
        Query::False => out.push_str("false"),
        Query::Int(value) => out.push_str(format!(in alloc; "{value}")?.as_str()),
        Query::Quoted(text) => {
            quoted(alloc, out, text.text.as_str())?;
            out.push_str(format!(in alloc; "@{}", text.at)?.as_str())
        }
        Query::This => out.push_str("this"),
        Query::Root(at) => out.push_str(format!(in alloc; "root@{at}")?.as_str()),
        Query::Name(name) => word(alloc, out, name),
        Query::Var(name) => {
            out.push_str("$")?;
            word(alloc, out, name)
        }
        Query::Metadata => out.push_str("@"),
        Query::Meta(name) => {
            out.push_str("@ ")?;
            key(alloc, out, name)
        }
        _ => out.push_str("..."),
    }
}

/// A query, no deeper than `depth`.
#[cycle(shape)]
pub fn query(
    alloc: Global,
    out: &mut String,
    shown: &Query,
    depth: usize,
) -> Result<(), AllocError> {
    if depth == 0 {
        return out.push_str("...");
    }
    match shown {
        Query::Call(name, found) => {
            out.push_str("(call ")?;
            word(alloc, out, name)?;
            args(alloc, out, found, depth - 1)?;
        }
        Query::Paren(inner) => {
            out.push_str("(paren ")?;
            query(alloc, out, inner.get(), depth - 1)?;
        }
        Query::List(items) => {
            out.push_str("(list")?;
            queries(alloc, out, items, depth - 1)?;
        }
        Query::Object(found) => {
            out.push_str("(object")?;
            members(alloc, out, found, depth - 1)?;
        }
        Query::Item(head, found) => {
            out.push_str("(item ")?;
            query(alloc, out, head.get(), depth - 1)?;
            suffixes(alloc, out, found, depth - 1)?;
        }
        Query::Prefix(op, operand) => {
            out.push_str(match op {
                PrefixOp::Not => "(! ",
                PrefixOp::Minus => "(- ",
            })?;
            query(alloc, out, operand.get(), depth - 1)?;
        }
        Query::Product(..) | Query::Sum(..) | Query::Compare(..) => {
            numeric(alloc, out, shown, depth - 1)?
        }
        Query::And(first, more) => chain(alloc, out, "(and ", first, more, depth - 1)?,
        Query::Or(first, more) => chain(alloc, out, "(or ", first, more, depth - 1)?,
        Query::Coalesce(first, more) => chain(alloc, out, "(coalesce ", first, more, depth - 1)?,
        Query::Match(..) | Query::If(..) => choice(alloc, out, shown, depth - 1)?,
        _ => return leaf(alloc, out, shown),
    }
    out.push_str(")")
}

#[cycle(shape)]
fn numeric(alloc: Global, out: &mut String, shown: &Query, depth: usize) -> Result<(), AllocError> {
    match shown {
        Query::Product(first, more) => {
            out.push_str("(product ")?;
            query(alloc, out, first.get(), depth)?;
            terms(alloc, out, more, depth)
        }
        Query::Sum(first, more) => {
            out.push_str("(sum ")?;
            query(alloc, out, first.get(), depth)?;
            terms(alloc, out, more, depth)
        }
        Query::Compare(left, op, right) => {
            out.push_str("(compare ")?;
            query(alloc, out, left.get(), depth)?;
            out.push_str(format!(in alloc; " {} ", op_text(*op))?.as_str())?;
            query(alloc, out, right.get(), depth)
        }
        _ => Ok(()),
    }
}

#[cycle(shape)]
fn choice(alloc: Global, out: &mut String, shown: &Query, depth: usize) -> Result<(), AllocError> {
    match shown {
        Query::Match(subject, found) => {
            out.push_str("(match")?;
            if let Some(subject) = subject {
                out.push_str(" ")?;
                query(alloc, out, subject.get(), depth)?;
            }
            cases(alloc, out, found, depth)
        }
        Query::If(found, last) => {
            out.push_str("(if")?;
            branches(alloc, out, found, depth)?;
            if let Some(last) = last {
                out.push_str(" else ")?;
                query(alloc, out, last.get(), depth)?;
            }
            Ok(())
        }
        _ => Ok(()),
    }
}

#[cycle(shape)]
fn chain(
    alloc: Global,
    out: &mut String,
    name: &str,
    first: &Boxed<Query>,
    more: &Items<Query>,
    depth: usize,
) -> Result<(), AllocError> {
    out.push_str(name)?;
    query(alloc, out, first.get(), depth)?;
    queries(alloc, out, more, depth)
}

#[cycle(shape)]
fn queries(
    alloc: Global,
    out: &mut String,
    items: &Items<Query>,
    depth: usize,
) -> Result<(), AllocError> {
    for item in items.as_slice() {
        out.push_str(" ")?;
        query(alloc, out, item, depth)?;
    }
    Ok(())
}

#[cycle(shape)]
fn terms(
    alloc: Global,
    out: &mut String,
    found: &Items<Term<Query>>,
    depth: usize,
) -> Result<(), AllocError> {
    for term in found.as_slice() {
        out.push_str(format!(in alloc; " {} ", op_text(term.op))?.as_str())?;
        query(alloc, out, &term.query, depth)?;
    }
    Ok(())
}

#[cycle(shape)]
fn members(
    alloc: Global,
    out: &mut String,
    found: &Items<Member<Query>>,
    depth: usize,
) -> Result<(), AllocError> {
    for member in found.as_slice() {
        out.push_str(" ")?;
        quoted(alloc, out, member.key.as_str())?;
        out.push_str(": ")?;
        query(alloc, out, &member.query, depth)?;
    }
    Ok(())
}

#[cycle(shape)]
fn arg(
    alloc: Global,
    out: &mut String,
    shown: &Arg<Query>,
    depth: usize,
) -> Result<(), AllocError> {
    match shown {
        Arg::Query(plain) => query(alloc, out, plain, depth),
        Arg::Lambda(name, body) => {
            out.push_str(format!(in alloc; "({} -> ", name.as_str())?.as_str())?;
            query(alloc, out, body, depth)?;
            out.push_str(")")
        }
    }
}

#[cycle(shape)]
fn args(
    alloc: Global,
    out: &mut String,
    found: &Items<Arg<Query>>,
    depth: usize,
) -> Result<(), AllocError> {
    for one in found.as_slice() {
        out.push_str(" ")?;
        arg(alloc, out, one, depth)?;
    }
    Ok(())
}

#[cycle(shape)]
fn suffix(
    alloc: Global,
    out: &mut String,
    shown: &Suffix<Query>,
    depth: usize,
) -> Result<(), AllocError> {
    match shown {
        Suffix::Name(text) => out.push_str(text.as_str()),
        Suffix::Quoted(text) => quoted(alloc, out, text.as_str()),
        Suffix::Int(value) => out.push_str(format!(in alloc; "{value}")?.as_str()),
        Suffix::Method(name, found) => {
            out.push_str("(")?;
            word(alloc, out, name)?;
            args(alloc, out, found, depth)?;
            out.push_str(")")
        }
        Suffix::Within(one) => {
            out.push_str("(within ")?;
            arg(alloc, out, one, depth)?;
            out.push_str(")")
        }
    }
}

#[cycle(shape)]
fn suffixes(
    alloc: Global,
    out: &mut String,
    found: &Items<Suffix<Query>>,
    depth: usize,
) -> Result<(), AllocError> {
    for one in found.as_slice() {
        out.push_str(" .")?;
        suffix(alloc, out, one, depth)?;
    }
    Ok(())
}

#[cycle(shape)]
fn cases(
    alloc: Global,
    out: &mut String,
    found: &Items<Case<Query>>,
    depth: usize,
) -> Result<(), AllocError> {
    for case in found.as_slice() {
        match case {
            Case::Any(gives) => {
                out.push_str(" (any ")?;
                query(alloc, out, gives, depth)?;
            }
            Case::When(test, gives) => {
                out.push_str(" (when ")?;
                query(alloc, out, test, depth)?;
                out.push_str(" ")?;
                query(alloc, out, gives, depth)?;
            }
        }
        out.push_str(")")?;
    }
    Ok(())
}

#[cycle(shape)]
fn branches(
    alloc: Global,
    out: &mut String,
    found: &Items<Branch<Query>>,
    depth: usize,
) -> Result<(), AllocError> {
    for branch in found.as_slice() {
        out.push_str(" (")?;
        query(alloc, out, &branch.test, depth)?;
        out.push_str(" ")?;
        query(alloc, out, &branch.gives, depth)?;
        out.push_str(")")?;
    }
    Ok(())
}
