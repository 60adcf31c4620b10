//! Whether a mapping may ask for the document.
//!
//! No contract speaks of the answer: where it is no, a query that asks all the same reads the content.

use bt_tree::{Mapping, Query, Stmt, Suffix};

/// Whether a query plainly gives the same whatever the content is as a document.
fn is_quiet(q: &Query) -> bool {
    match q {
        Query::Null | Query::True | Query::False | Query::Int(_) | Query::Quoted(_) => true,
        Query::Root(_) | Query::Var(_) | Query::Metadata | Query::Meta(_) => true,
        Query::Call(_, args) => args.is_empty(),
        _ => false,
    }
}

fn is_quiet_suffix(suffix: &Suffix<Query>) -> bool {
    match suffix {
        Suffix::Name(_) | Suffix::Quoted(_) | Suffix::Int(_) => true,
        Suffix::Method(_, args) => args.is_empty(),
        Suffix::Within(_) => false,
    }
}

fn are_quiet(suffixes: &[Suffix<Query>]) -> bool {
    for suffix in suffixes {
        if !is_quiet_suffix(suffix) {
            return false;
        }
    }
    true
}

fn query_asks(q: &Query) -> bool {
    match q {
        Query::Item(head, suffixes) => { !(is_quiet(head.get()) && are_quiet(suffixes.as_slice())) }
        q => !is_quiet(q),
    }
}

fn statement_asks(s: &Stmt) -> bool {
    match s {
        Stmt::Root { query, .. } | Stmt::Meta { query, .. } | Stmt::Let { query, .. } => {
            query_asks(query)
        }
        Stmt::Map { .. } => false,
    }
}

/// Whether a mapping may ask for the document of the message.
pub fn may_ask(m: &Mapping) -> bool {
    match m {
        Mapping::Query { query, .. } => query_asks(query),
        Mapping::Statements(ss) => {
            for s in ss.as_slice() {
                if statement_asks(s) {
                    return true;
                }
            }
            false
        }
    }
}
