//! Lints mappings, compares them, and builds their patterns.
//!
//! A case is a line of the standard input, of fields with a semicolon between. `mapping` and a text list
//! the lints of the mapping of the text, `check` those of a check, and `mapping in a check` those of a
//! mapping that is used as a check. `same` and two texts tell whether their mappings are the same but for
//! places. `ready` and a text list the patterns of a mapping that is made ready, or tell the one that is
//! refused. A tilde stands for a line feed.
#![tactic(auto)]

mod case;
mod outcomes;

use case::Case;
use std::alloc::{AllocError, Global};
use std::io;

// What comes of the case of the line.
fn report(alloc: Global, line: &str) -> Result<String, AllocError> {
    let outcome = Case::read(line).outcome(alloc)?;
    format!(in alloc; "{line}\n{outcome}")
}

fn main(rt: HostRuntime) -> io::Result<()> {
    for line in rt.lines(rt.alloc()) {
        let text = report(rt.alloc(), line?.as_str())?;
        print!(rt; "{text}")?;
    }
    Ok(())
}
