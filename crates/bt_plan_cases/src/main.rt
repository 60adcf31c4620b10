//! Compiles configurations, and prints their plans and the parts of a transaction.
//!
//! A case is a line of the standard input, of three fields with a tab between: its name, a configuration, and the items of a
//! transaction with an `&` between.
#![tactic(auto)]

mod inputs;
mod show;

use bt_config::{Config, read_config};
use bt_demand::derive::Derive;
use bt_plan::{CompileFault, Plan, compile};
use bt_ports::NoMemory;
use bt_ports::blob::Blob;
use bt_ports::parts::{Item, Items, Txn};
use bt_ports::sequence::Sequence;
use bt_ports::text::Text;
use bt_schema::{Lint, lint_line};
use inputs::push_input;
use show::{push_part, shown};
use std::alloc::{AllocError, Global};
use std::io;

fn items(alloc: Global, texts: &str) -> Result<Items, NoMemory> {
    let mut items = Sequence::new(alloc);
    for text in texts.split('&') {
        let item = Item {
            bytes: Blob::make(alloc, text.as_bytes())?,
            path: Some(Text::make(alloc, "p")?),
        };
        items.push(item)?;
    }
    Ok(items)
}

// The parts of one transaction of a plan.
fn push_parts(alloc: Global, all: &mut String, plan: &Plan, texts: &str) -> Result<(), AllocError> {
    let Ok(items) = items(alloc, texts) else {
        return writeln!(all, "  no memory");
    };
    let txn = Txn {
        number: 1,
        moment: 0,
        items,
    };
    match plan.derive(&txn) {
        Ok(routes) => {
            for part in routes.parts.as_slice() {
                push_part(all, part)?;
            }
            Ok(())
        }
        Err(NoMemory) => writeln!(all, "  no memory"),
    }
}

fn push_sinks(all: &mut String, plan: &Plan) -> Result<(), AllocError> {
    write!(all, "  sinks")?;
    for name in plan.sinks().as_slice() {
        write!(all, " {}", name.as_str())?;
    }
    write!(all, "; ends")?;
    for end in plan.ends().as_slice() {
        if end.as_slice() == b"\n".as_slice() {
            write!(all, " LF")?;
        } else {
            write!(all, " {}", shown(end.as_slice()))?;
        }
    }
    writeln!(all, "")
}

fn push_numbers(all: &mut String, plan: &Plan) -> Result<(), AllocError> {
    write!(
        all,
        "  threads {}; window {}; holds",
        plan.threads(),
        plan.window()
    )?;
    for policy in plan.holds().as_slice() {
        write!(
            all,
            " ({} {} {})",
            policy.count, policy.byte_size, policy.period
        )?;
    }
    writeln!(all, "")
}

fn push_lint(alloc: Global, all: &mut String, lint: &Lint) -> Result<(), AllocError> {
    match lint_line(alloc, lint) {
        Ok(line) => writeln!(all, "  {}", line.as_str()),
        Err(NoMemory) => writeln!(all, "  no memory"),
    }
}

fn push_fault(alloc: Global, all: &mut String, fault: &CompileFault) -> Result<(), AllocError> {
    match fault {
        CompileFault::Lints(lints) => {
            for lint in lints.as_slice() {
                push_lint(alloc, all, lint)?;
            }
            Ok(())
        }
        CompileFault::NoMemory => writeln!(all, "  no memory"),
    }
}

fn push_plan(
    alloc: Global,
    all: &mut String,
    config: &Config,
    texts: &str,
) -> Result<(), AllocError> {
    match compile(alloc, config) {
        Ok((plan, input)) => {
            push_sinks(all, &plan)?;
            push_numbers(all, &plan)?;
            write!(all, "  input")?;
            push_input(all, &input)?;
            writeln!(all, "")?;
            push_parts(alloc, all, &plan, texts)
        }
        Err(fault) => push_fault(alloc, all, &fault),
    }
}

// The plan of the case of the line, as text.
fn report(alloc: Global, line: &str) -> Result<String, AllocError> {
    let mut fields = line.split('\t');
    let name = fields.next().unwrap_or("");
    let text = fields.next().unwrap_or("");
    let texts = fields.next().unwrap_or("");
    let mut all = format!(in alloc; "{name}\n")?;
    match read_config(alloc, text.as_bytes()) {
        Ok(config) => push_plan(alloc, &mut all, &config, texts)?,
        Err(_) => writeln!(&mut all, "  no configuration")?,
    }
    Ok(all)
}

fn main(rt: HostRuntime) -> io::Result<()> {
    for line in rt.lines(rt.alloc()) {
        let text = report(rt.alloc(), line?.as_str())?;
        print!(rt; "{text}")?;
    }
    Ok(())
}
