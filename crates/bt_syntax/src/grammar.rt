//! The grammar's readers.
//!
//! They take the reader of what stands between brackets as a parameter, so that each is proved by
//! itself. Nothing but brackets recurses: chains, suffixes, arguments, cases and `else if` are loops.

ghost use Rattle.bt_syntax.specs.Code.{Reads, Nests};
ghost use Rattle.bt_syntax.specs.Readers as spec;

use crate::cursor::Cursor;
use crate::stop::Stop;
use bt_tree::Query;
use std::alloc::Global;

/// The readers, inside so many brackets.
#[derive(Clone, Copy)]
pub struct Grammar<F> {
    /// Where memory comes from.
    pub alloc: Global,
    /// How many more brackets may open.
    pub depth: usize,
    /// Reads a query inside brackets.
    pub query: F,
}

impl<F: Fn(Global, &mut Cursor<'_>, usize) -> Result<Query, Stop>> Grammar<F> {
    /// A query inside brackets.
    pub fn inner(&self, c: &mut Cursor<'_>) -> Result<Query, Stop>
        requires { Nests self.now.depth (F.pre self.now.query) (F.post self.now.query) }
        ensures { Reads (spec.query self.now.depth c.old) result c.new }
    {
        (self.query)(self.alloc, c, self.depth)
    }
}

/// A query inside a bracket. `depth` counts the brackets that may open from that one on, so at 0 it is
/// one too many.
#[tactic(auto, unfolding(crate::specs::Readers::query))]
pub fn query(alloc: Global, c: &mut Cursor<'_>, depth: usize) -> Result<Query, Stop>
    ensures { Reads (spec.query depth c.old) result c.new }
{
    if depth == 0 {
        return Err(Stop::Deep);
    }
    Grammar {
        alloc,
        depth: depth - 1,
        query,
    }
    .level(c)
}
