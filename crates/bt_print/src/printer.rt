//! What prints queries within a printed part.

ghost use Rattle.std.specs.Prelude.{◌≡◌, OnOk};
ghost use Rattle.bt_words.specs.Printing as print;
ghost use Rattle.bt_print.specs.Steps.{Prints, after};

use bt_ports::NoMemory;
use bt_ports::text::Text;
use bt_tree::Query;
use std::alloc::Global;

/// The printer of parts, inside so many queries.
#[derive(Clone, Copy)]
pub struct Printer<F> {
    /// Where memory comes from.
    pub alloc: Global,
    /// How many more queries may nest.
    pub room: usize,
    /// Prints a query inside this one.
    pub query: F,
}

impl<F: Fn(Global, &mut Text, &Query, usize) -> Result<(), NoMemory>> Printer<F> {
    /// A query inside this one.
    pub fn query(&self, out: &mut Text, q: &Query) -> Result<(), NoMemory>
        requires { Prints self.now.room (F.pre self.now.query) (F.post self.now.query) }
        ensures { OnOk result (out.new ≡ after out.old (print.query q.now)) }
    {
        (self.query)(self.alloc, out, q, self.room)
    }
}
