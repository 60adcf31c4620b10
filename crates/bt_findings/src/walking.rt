//! The entry of the walk.

ghost use Rattle.std.specs.Prelude.{◌≡◌, ◌++◌, OnOk, IfOk};
ghost use Rattle.bt_findings.specs.Found.{findings};

use crate::finding::Findings;
use crate::walker::Walker;
use bt_ports::NoMemory;
use bt_tree::Query;
use std::alloc::Global;

/// How many queries may nest. In a mapping that was parsed, 64 brackets and eight layers in each nest
/// no deeper.
const ROOM: usize = 1024;

/// A query. Where too many nest, the running stack counts as memory.
fn walk_in(alloc: Global, out: &mut Findings, q: &Query, room: usize) -> Result<(), NoMemory>
    ensures { OnOk result (out.new.list ≡ out.old.list ++ findings q.now) }
{
    if room == 0 {
        return Err(NoMemory);
    }
    Walker {
        alloc,
        room: room - 1,
        walk: walk_in,
    }
    .node(out, q)
}

/// Puts what is found in a query behind what was found before, in order of the text.
///
/// Queries that nest deeper than 1,024 are answered `NoMemory`, and what was found before is then of
/// no use.
pub fn find_all(alloc: Global, out: &mut Findings, q: &Query) -> Result<(), NoMemory>
    ensures { OnOk result (out.new.list ≡ out.old.list ++ findings q.now) }
{
    walk_in(alloc, out, q, ROOM)
}
