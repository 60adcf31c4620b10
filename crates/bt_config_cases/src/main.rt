//! Prints the lints of configurations.
//!
//! A case is a line of the standard input, which is a configuration. It is printed, and below it its
//! lint lines, each indented by two spaces.
#![tactic(auto)]

use bt_config::{ConfigFault, lint_config, lint_line, read_config};
use std::alloc::{AllocError, Global};
use std::io;

// The lint lines of the configuration, or why there are none.
fn report(alloc: Global, line: &str) -> Result<String, AllocError> {
    let config = match read_config(alloc, line.as_bytes()) {
        Ok(config) => config,
        Err(ConfigFault::NotJson) => return String::from_str(alloc, "  not JSON\n"),
        Err(ConfigFault::OutOfProfile) => {
            return String::from_str(alloc, "  number out of profile\n");
        }
        Err(ConfigFault::NoMemory) => return String::from_str(alloc, "  no memory\n"),
    };
    let Ok(lints) = lint_config(alloc, &config) else {
        return String::from_str(alloc, "  no memory\n");
    };
    if lints.is_empty() {
        return String::from_str(alloc, "  no lint\n");
    }
    let mut out = String::new(alloc);
    for lint in lints.as_slice() {
        let Ok(text) = lint_line(alloc, lint) else {
            return String::from_str(alloc, "  no memory\n");
        };
        out.push_str("  ")?;
        out.push_str(text.as_str())?;
        out.push_str("\n")?;
    }
    Ok(out)
}

fn main(rt: HostRuntime) -> io::Result<()> {
    for line in rt.lines(rt.alloc()) {
        let line = line?;
        let lints = report(rt.alloc(), line.as_str())?;
        println!(rt; "{line}")?;
        print!(rt; "{lints}")?;
    }
    Ok(())
}
