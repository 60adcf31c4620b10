//! Prints mappings, and cuts interpolated texts into pieces.
//!
//! A case is a line of the standard input, of fields with a semicolon between. `print` and a text
//! print the mapping of the text; what is printed is read and printed once more, and must be the same.
//! `nested`, a number, an opening, a middle and a closing do so with so many openings and closings, and
//! tell only the outcome. `pieces` and a text print the text's pieces. A tilde stands for a line feed,
//! in what is read and in what is written.
#![tactic(auto)]

mod case;

use case::Case;
use std::alloc::{AllocError, Global};
use std::io;

// What comes of the case of the line.
fn report(alloc: Global, line: &str) -> Result<String, AllocError> {
    let outcome = Case::read(line).outcome(alloc)?;
    format!(in alloc; "{line}\n  {outcome}\n")
}

fn main(rt: HostRuntime) -> io::Result<()> {
    for line in rt.lines(rt.alloc()) {
        let text = report(rt.alloc(), line?.as_str())?;
        print!(rt; "{text}")?;
    }
    Ok(())
}
