//! Makes the processors of configurations ready.
//!
//! A case is a line of the standard input: a pointer, a space and a configuration. It is printed, and
//! below it the processors that the pointer names, or why there are none. `mapping(2)` has two patterns,
//! and so have checks and queries; a case of a `switch` with `fallthrough` ends with `+`.
#![tactic(auto)]

mod shape;

use bt_compile::{ProcsFault, compile_procs};
use bt_config::{Config, Lint, lint_line, read_config};
use bt_proc::Procs;
use std::alloc::{AllocError, Global};
use std::io;

// The processors as a line.
fn listed(alloc: Global, procs: &Procs) -> Result<String, AllocError> {
    let mut out = String::new(alloc);
    shape::all(&mut out, procs)?;
    Ok(out)
}

fn lint_text(alloc: Global, lint: &Lint) -> Result<String, AllocError> {
    match lint_line(alloc, lint) {
        Ok(text) => Ok(text.into_string()),
        Err(_) => String::from_str(alloc, "no memory"),
    }
}

// The processors that a pointer names, or why there are none.
fn told(alloc: Global, config: &Config, pointer: &str) -> Result<String, AllocError> {
    match compile_procs(alloc, config, pointer) {
        Ok(procs) => listed(alloc, &procs),
        Err(ProcsFault::NotThere) => String::from_str(alloc, "not there"),
        Err(ProcsFault::Lint(lint)) => lint_text(alloc, &lint),
        Err(ProcsFault::NoMemory) => String::from_str(alloc, "no memory"),
    }
}

// What comes of the case of the line.
fn outcome(alloc: Global, line: &str) -> Result<String, AllocError> {
    let Some((pointer, text)) = line.split_once(' ') else {
        return String::from_str(alloc, "no case");
    };
    match read_config(alloc, text.as_bytes()) {
        Ok(config) => told(alloc, &config, pointer),
        Err(_) => String::from_str(alloc, "no configuration"),
    }
}

fn main(rt: HostRuntime) -> io::Result<()> {
    for line in rt.lines(rt.alloc()) {
        let line = line?;
        let told = outcome(rt.alloc(), line.as_str())?;
        println!(rt; "{line}")?;
        println!(rt; "  {told}")?;
    }
    Ok(())
}
