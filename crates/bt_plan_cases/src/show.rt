//! Parts as text.

use bt_demand::demand::{Demand, Demands};
use bt_demand::routes::Routed;
use bt_ports::origins::Origins;
use std::alloc::AllocError;

/// Bytes as text; such that are none are shown as `?`.
pub fn shown(bytes: &[u8]) -> &str {
    str::from_utf8(bytes).unwrap_or("?")
}

#[cycle(push)]
fn push_demand(all: &mut String, demand: &Demand) -> Result<(), AllocError> {
    match demand {
        Demand::Leaf {
            leaf,
            sink,
            bytes,
            ..
        } => write!(all, " leaf {leaf} to {sink}: {};", shown(bytes.as_slice())),
        Demand::Drop => write!(all, " drop;"),
        Demand::Reject(text) => write!(all, " reject {};", text.as_str()),
        Demand::All(children) => {
            write!(all, " all (")?;
            push_each(all, children)?;
            write!(all, " )")
        }
        Demand::First(children) => {
            write!(all, " first (")?;
            push_each(all, children)?;
            write!(all, " )")
        }
        Demand::Hold {
            node,
            ends,
            size,
            child,
            ..
        } => {
            write!(all, " hold {node}, ends {ends}, size {size} (")?;
            push_demand(all, child)?;
            write!(all, " )")
        }
    }
}

#[cycle(push)]
fn push_each(all: &mut String, demands: &Demands) -> Result<(), AllocError> {
    for demand in demands.list.iter() {
        push_demand(all, demand)?;
    }
    Ok(())
}

fn push_origins(all: &mut String, from: &Origins) -> Result<(), AllocError> {
    for number in from.as_slice() {
        write!(all, " {number}")?;
    }
    Ok(())
}

/// Puts a part at the end, in a line.
pub fn push_part(all: &mut String, part: &Routed) -> Result<(), AllocError> {
    write!(all, "  from")?;
    push_origins(all, &part.from)?;
    write!(all, ":")?;
    push_demand(all, &part.demand)?;
    writeln!(all, "")
}
