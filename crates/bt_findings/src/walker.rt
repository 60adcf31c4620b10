//! What walks queries within a walked part.

ghost use Rattle.std.specs.Prelude.{◌≡◌, ◌++◌, OnOk};
ghost use Rattle.bt_findings.specs.Found.{findings};
ghost use Rattle.bt_findings.specs.Steps.{Walks};

use crate::finding::Findings;
use bt_ports::NoMemory;
use bt_tree::Query;
use std::alloc::Global;

/// The walk through parts, inside so many queries.
#[derive(Clone, Copy)]
pub struct Walker<F> {
    /// Where memory comes from.
    pub alloc: Global,
    /// How many more queries may nest.
    pub room: usize,
    /// Walks a query inside this one.
    pub walk: F,
}

impl<F: Fn(Global, &mut Findings, &Query, usize) -> Result<(), NoMemory>> Walker<F> {
    /// A query inside this one.
    pub fn query(&self, out: &mut Findings, q: &Query) -> Result<(), NoMemory>
        requires { Walks self.now.room (F.pre self.now.walk) (F.post self.now.walk) }
        ensures { OnOk result (out.new.list ≡ out.old.list ++ findings q.now) }
    {
        (self.walk)(self.alloc, out, q, self.room)
    }
}
