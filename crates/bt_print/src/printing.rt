//! The printer's entry.

ghost use Rattle.std.specs.Prelude.{◌≡◌, OnOk, IfOk};
ghost use Rattle.bt_words.specs.Layout.{printed};
ghost use Rattle.bt_words.specs.Printing as print;
ghost use Rattle.bt_print.specs.Steps.{after};

use crate::printer::Printer;
use bt_ports::NoMemory;
use bt_ports::text::Text;
use bt_tree::{Mapping, Query};
use std::alloc::Global;

/// How many queries may nest. In a mapping that was parsed, 64 brackets and eight layers in each nest
/// no deeper.
const ROOM: usize = 1024;

/// A query. Where too many nest, the running stack counts as memory.
fn query_in(alloc: Global, out: &mut Text, q: &Query, room: usize) -> Result<(), NoMemory>
    ensures { OnOk result (out.new ≡ after out.old (print.query q.now)) }
{
    if room == 0 {
        return Err(NoMemory);
    }
    Printer {
        alloc,
        room: room - 1,
        query: query_in,
    }
    .node(out, q)
}

/// The text of a mapping. It is read back as the same mapping but for places: `printed_is_read` of
/// `bt_words` says so of each mapping that `parse` or `parse_check` gave.
///
/// Queries that nest deeper than 1,024 are answered `NoMemory`. The time is linear in the text.
pub fn print(alloc: Global, mapping: &Mapping) -> Result<Text, NoMemory>
    ensures { IfOk result (λ text. text ≡ printed mapping.now) }
{
    let mut out = Text::new(alloc);
    Printer {
        alloc,
        room: ROOM,
        query: query_in,
    }
    .mapping(&mut out, mapping)?;
    Ok(out)
}
