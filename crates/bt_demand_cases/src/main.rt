//! Walks demands step by step, and prints what is next after each step.
//!
//! A case is a line of the standard input, of three fields with a semicolon between: its name; the words of a demand; and
//! its steps. Words stand in the order in which the demand is built: `leaf=2,7` is leaf 2 for sink 7, whose bytes are
//! `text`; `drop`; `reject=because`; `hold=3` stands round the demand before it, doesn't end its batch and has size 4;
//! `all` and `first` take the two demands before them. A step is `+` or `-`, which does what is next and gives a record
//! the answer accepted or refused, or the number of a hold to release.
#![tactic(auto)]

mod build;
mod no_parts;
mod walk;

use build::build;
use std::alloc::{AllocError, Global};
use std::io;
use walk::walk;

// The walk of the case of the line, as text.
fn report(alloc: Global, line: &str) -> Result<String, AllocError> {
    let mut fields = line.split(';');
    let name = fields.next().unwrap_or("");
    let words = fields.next().unwrap_or("");
    let steps = fields.next().unwrap_or("");
    match build(alloc, words) {
        Ok(mut demand) => walk(alloc, name, &mut demand, steps),
        Err(_) => format!(in alloc; "{name}: no memory\n"),
    }
}

fn main(rt: HostRuntime) -> io::Result<()> {
    for line in rt.lines(rt.alloc()) {
        let text = report(rt.alloc(), line?.as_str())?;
        print!(rt; "{text}")?;
    }
    let text = no_parts::report(rt.alloc())?;
    print!(rt; "{text}")
}
