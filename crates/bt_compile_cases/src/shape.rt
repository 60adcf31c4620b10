//! Processors in a line.

use bt_mappings::{Bit, Pieces};
use bt_messages::{Branch, Case, MessageProcessor};
use bt_proc::{Format, Group, Processor};
use bt_ready::Ready;
use sqlite_items::Items;
use std::alloc::AllocError;

fn ready(out: &mut String, name: &str, r: &Ready) -> Result<(), AllocError> {
    let patterns = r.patterns.len();
    write!(out, "{name}({patterns})")
}

fn optional(out: &mut String, name: &str, r: &Option<Ready>) -> Result<(), AllocError> {
    match r {
        Some(r) => ready(out, name, r),
        None => out.push_str("none"),
    }
}

fn separate(out: &mut String, i: usize) -> Result<(), AllocError> {
    if i > 0 { out.push_str(", ") } else { Ok(()) }
}

#[cycle(single)]
fn single(out: &mut String, p: &MessageProcessor) -> Result<(), AllocError> {
    match p {
        MessageProcessor::Mapping(r) => ready(out, "mapping", r),
        MessageProcessor::Try(ps) => {
            out.push_str("try")?;
            singles(out, ps)
        }
        MessageProcessor::ForEach(ps) => {
            out.push_str("for_each")?;
            singles(out, ps)
        }
        MessageProcessor::Catch(ps) => {
            out.push_str("catch")?;
            singles(out, ps)
        }
        MessageProcessor::Switch(ks) => {
            out.push_str("switch")?;
            cases(out, ks)
        }
        MessageProcessor::Branch(b) => branch(out, b),
    }
}

#[cycle(single)]
fn singles(out: &mut String, ps: &Items<MessageProcessor>) -> Result<(), AllocError> {
    out.push_str("[")?;
    for (i, p) in ps.as_slice().iter().enumerate() {
        separate(out, i)?;
        single(out, p)?;
    }
    out.push_str("]")
}

#[cycle(single)]
fn cases(out: &mut String, ks: &Items<Case<MessageProcessor>>) -> Result<(), AllocError> {
    out.push_str("[")?;
    for (i, k) in ks.as_slice().iter().enumerate() {
        separate(out, i)?;
        optional(out, "check", &k.check)?;
        singles(out, &k.processors)?;
        if k.fallthrough {
            out.push_str("+")?;
        }
    }
    out.push_str("]")
}

#[cycle(single)]
fn branch(out: &mut String, b: &Branch<MessageProcessor>) -> Result<(), AllocError> {
    out.push_str("branch(")?;
    optional(out, "request", &b.request)?;
    singles(out, &b.processors)?;
    optional(out, "result", &b.result)?;
    out.push_str(")")
}

fn bit(out: &mut String, b: &Bit) -> Result<(), AllocError> {
    match b {
        Bit::Literal(text) => {
            let text = text.as_str();
            write!(out, "'{text}'")
        }
        Bit::Query(r) => ready(out, "query", r),
    }
}

fn pieces(out: &mut String, bits: &Pieces) -> Result<(), AllocError> {
    out.push_str("[")?;
    for (i, b) in bits.as_slice().iter().enumerate() {
        separate(out, i)?;
        bit(out, b)?;
    }
    out.push_str("]")
}

fn format_of(format: Format) -> &'static str {
    match format {
        Format::Lines => "(lines)",
        Format::JsonArray => "(json_array)",
    }
}

#[cycle(processor)]
fn processor(out: &mut String, p: &Processor) -> Result<(), AllocError> {
    match p {
        Processor::Message(p) => single(out, p),
        Processor::Try(ps) => {
            out.push_str("try")?;
            all(out, ps)
        }
        Processor::ForEach(ps) => {
            out.push_str("for_each")?;
            all(out, ps)
        }
        Processor::Catch(ps) => {
            out.push_str("catch")?;
            all(out, ps)
        }
        Processor::Split(size) => write!(out, "split({size})"),
        Processor::GroupBy(gs) => {
            out.push_str("group_by")?;
            groups(out, gs)
        }
        Processor::GroupByValue(bits) => {
            out.push_str("group_by_value")?;
            pieces(out, bits)
        }
        Processor::Archive(format) => {
            out.push_str("archive")?;
            out.push_str(format_of(*format))
        }
        Processor::Unarchive(format) => {
            out.push_str("unarchive")?;
            out.push_str(format_of(*format))
        }
    }
}

/// Processors, as a list in brackets.
#[cycle(processor)]
pub fn all(out: &mut String, ps: &Items<Processor>) -> Result<(), AllocError> {
    out.push_str("[")?;
    for (i, p) in ps.as_slice().iter().enumerate() {
        separate(out, i)?;
        processor(out, p)?;
    }
    out.push_str("]")
}

#[cycle(processor)]
fn groups(out: &mut String, gs: &Items<Group<Processor>>) -> Result<(), AllocError> {
    out.push_str("[")?;
    for (i, g) in gs.as_slice().iter().enumerate() {
        separate(out, i)?;
        ready(out, "check", &g.check)?;
        all(out, &g.processors)?;
    }
    out.push_str("]")
}
