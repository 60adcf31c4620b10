//! Runs cases over a world in memory, and prints what stands after each.
//!
//! A case is a line of the standard input: its name, and behind it named fields with a semicolon between. `words` are
//! those of the command line, with a tilde between and a caret for a line feed; `file` is what the file `c.json` has;
//! `input` is the standard input, in which a bar stands for a line feed; and `open`, `read`, `put`, `answer` and `print`
//! are the numbers, counted from 1, of the opening, the read and so on that fails. What stands after it is its status, the accepted records (`+`, transaction, part, leaf, batch, bytes), the
//! refused records (`-`), the answers (`=`), the printed lines (`>`), how many sources were kept as input, and the lines
//! of `err`.
#![tactic(auto)]

mod case;
mod told;

use case::Case;
use std::alloc::{AllocError, Global};
use std::io;
use told::told;

// What stands after the case of the line, as text.
fn report(alloc: Global, line: &str) -> Result<String, AllocError> {
    let case = Case::read(line);
    match case.run(alloc) {
        Ok((status, world)) => {
            let after = told(alloc, &world)?;
            format!(in alloc; "{}: {status:?}\n{after}", case.name())
        }
        Err(_) => format!(in alloc; "{}: no memory\n", case.name()),
    }
}

fn main(rt: HostRuntime) -> io::Result<()> {
    for line in rt.lines(rt.alloc()) {
        let text = report(rt.alloc(), line?.as_str())?;
        print!(rt; "{text}")?;
    }
    Ok(())
}
