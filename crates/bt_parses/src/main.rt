//! Parses mappings, and prints their trees or their faults, or the tokens of a text.
//!
//! A case is a line of the standard input, of fields with a semicolon between: `mapping` or `check`, for a mapping or a
//! query alone, `long` for a mapping of which only the outcome is printed, or `tokens` for the tokens alone; and the
//! text, in which a tilde stands for a line feed. Four more fields are a count, a piece that follows the text so many times, what follows then, and a piece
//! that follows that so many times.
//!
//! A tree is printed with its kinds of nodes in parentheses, names with their places behind an `@`, and statements with
//! their lines.
#![tactic(auto)]

mod case;
mod queries;
mod statements;
mod tokens;

use case::Case;
use std::alloc::{AllocError, Global};
use std::io;

// What the case of the line is read as.
fn report(alloc: Global, line: &str) -> Result<String, AllocError> {
    let case = Case::read(line);
    let outcome = case.outcome(alloc)?;
    format!(in alloc; "{line}\n  {outcome}\n")
}

fn main(rt: HostRuntime) -> io::Result<()> {
    for line in rt.lines(rt.alloc()) {
        let text = report(rt.alloc(), line?.as_str())?;
        print!(rt; "{text}")?;
    }
    Ok(())
}
